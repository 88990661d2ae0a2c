// The fate of a record, a number: 1 to 10 is the reason of a rejection, and these are the others. A byte and no enum: one whose rejection has
// its reason takes two bytes, and no scan over such is vector code; one of a byte names the ten reasons a second time, and is no plainer.
ghost use Rattle.std.specs.Prelude.{◌≡◌};
ghost use Rattle.caller.specs.Fates.{first_fate, is_rejection, is_marked};

use crate::reason::RejectionReason;

// The record has no fate yet.
pub const UNDECIDED: u8 = 0;

// Not a rejection: a secondary or supplementary alignment.
pub const PASSED_OVER: u8 = 11;

// Not a rejection: a strand of its family is absent.
pub const NO_STRAND: u8 = 12;

// Its family gave a duplex.
pub const USED: u8 = 13;

// A record keeps its first fate.
pub fn first_fate(later: u8, fate: u8) -> u8
    ensures { result ≡ first_fate later fate }
{
    if fate == UNDECIDED { later } else { fate }
}

pub fn is_rejection(fate: u8) -> bool
    ensures { result ≡ is_rejection fate }
{
    (1..=10).contains(&fate)
}

// Downsampled is a rejection that is counted and never marked.
pub fn is_marked(fate: u8) -> bool
    ensures { result ≡ is_marked fate }
{
    is_rejection(fate) && fate != u8::from(RejectionReason::Downsampled)
}
