// The two strands of a family.

use codec_duplex::strand::Strand;

// Either may be absent.
#[derive(Clone, Copy)]
pub struct Strands<'a> {
    pub r1: Option<Strand<'a>>,
    pub r2: Option<Strand<'a>>,
}
