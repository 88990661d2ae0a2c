// The records of a family: as a host lends them, as the columns that the work is done on, and as marks; and the options.
#![tactic(auto)]

pub mod columns;
pub mod family;
pub mod marks;
pub mod options;
pub mod records;
pub mod room;
pub mod side;
