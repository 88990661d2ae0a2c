// The bits of a record's flags that the caller reads.
ghost use Rattle.std.specs.Prelude.{◌≡◌};
ghost use Rattle.raw_bam.specs.Flags.{paired_flag, reverse_flag, first_segment_flag, secondary_flag, supplementary_flag, has_flag};

const PAIRED: u16 = 0x1;

const REVERSE: u16 = 0x10;

const FIRST_SEGMENT: u16 = 0x40;

const SECONDARY: u16 = 0x100;

const SUPPLEMENTARY: u16 = 0x800;

// Five names of a line each: the bit as a parameter would say at each call what the name says.

#[tactic(auto, using(crate::proofs::Masks::masked))]
pub fn is_paired(flags: u16) -> bool
    ensures { result ≡ has_flag flags paired_flag }
{
    flags & PAIRED != 0
}

#[tactic(auto, using(crate::proofs::Masks::masked))]
pub fn is_reverse(flags: u16) -> bool
    ensures { result ≡ has_flag flags reverse_flag }
{
    flags & REVERSE != 0
}

#[tactic(auto, using(crate::proofs::Masks::masked))]
pub fn is_first_segment(flags: u16) -> bool
    ensures { result ≡ has_flag flags first_segment_flag }
{
    flags & FIRST_SEGMENT != 0
}

#[tactic(auto, using(crate::proofs::Masks::masked))]
pub fn is_secondary(flags: u16) -> bool
    ensures { result ≡ has_flag flags secondary_flag }
{
    flags & SECONDARY != 0
}

#[tactic(auto, using(crate::proofs::Masks::masked))]
pub fn is_supplementary(flags: u16) -> bool
    ensures { result ≡ has_flag flags supplementary_flag }
{
    flags & SUPPLEMENTARY != 0
}
