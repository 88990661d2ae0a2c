// What a duplex asks of its two strands.
ghost use Rattle.std.specs.Prelude.{◌≡◌};
ghost use Rattle.codec_framing.specs.Framing.{layout_r1, layout_r2};

use codec_strands::layout::Layout;

// The duplex's length, and which sides' longest records have flag 16.
#[derive(Clone, Copy)]
pub struct Frame {
    pub length: usize,
    pub r1_is_negative: bool,
    pub r2_is_negative: bool,
}

// One of the two strands is reverse complemented; each is padded on the side of its own longest record.
impl Frame {
    pub fn r1(self) -> Layout
        ensures { result ≡ layout_r1 self }
    {
        Layout {
            length: self.length,
            reversed: self.r1_is_negative,
            left: self.r1_is_negative,
        }
    }

    pub fn r2(self) -> Layout
        ensures { result ≡ layout_r2 self }
    {
        Layout {
            length: self.length,
            reversed: !self.r1_is_negative,
            left: self.r2_is_negative,
        }
    }
}
