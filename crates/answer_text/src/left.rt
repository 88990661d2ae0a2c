// What a family call leaves in the columns that it was lent.
use codec_duplex::strand::Strand;

// The duplex and both strands, the handover list's records and reasons, and the marks.
#[derive(Clone, Copy)]
pub struct Left<'a> {
    pub duplex: Strand<'a>,
    pub r1: Strand<'a>,
    pub r2: Strand<'a>,
    pub listed: &'a [u32],
    pub reasons: &'a [u8],
    pub marks: &'a [u64],
}
