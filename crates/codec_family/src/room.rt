// How long the columns are that a call is lent.
ghost use Rattle.std.specs.Prelude.{◌≡◌};
ghost use Rattle.codec_family.specs.Refusals.{is_wide, too_narrow};

// Bases, qualities, depths and errors.
#[derive(Clone, Copy)]
pub struct Widths {
    pub bases: usize,
    pub quals: usize,
    pub depths: usize,
    pub errors: usize,
}

// The twelve result columns, the two of the handover list, and the marks.
#[derive(Clone, Copy)]
pub struct Room {
    pub duplex: Widths,
    pub r1: Widths,
    pub r2: Widths,
    pub listed_records: usize,
    pub listed_reasons: usize,
    pub marks: usize,
}

impl Widths {
    fn is_wide(self) -> bool
        ensures { result ≡ is_wide self }
    {
        let bytes = (2048 <= self.bases) & (2048 <= self.quals);
        let shorts = (2048 <= self.depths) & (2048 <= self.errors);
        bytes & shorts
    }
}

impl Room {
    #[tactic(auto, unfolding(crate::specs::Refusals::too_narrow))]
    pub fn is_too_narrow(self) -> bool
        ensures { result ≡ too_narrow self }
    {
        let wide = self.duplex.is_wide() & self.r1.is_wide() & self.r2.is_wide();
        !wide | (self.listed_records < 512) | (self.listed_reasons < 512) | (self.marks < 8)
    }
}
