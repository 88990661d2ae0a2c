// A strand's geometry: padding, reverse complement, and the masks on a duplex's qualities.
#![tactic(auto)]

pub mod bases;
pub mod column;
pub mod layout;
pub mod mask;
pub mod strand;
