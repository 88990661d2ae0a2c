// What a host is told.
ghost use Rattle.std.specs.Prelude.{◌≡◌};
ghost use Rattle.sheet_text.specs.Reported.{reported_sheet};

use crate::refusal::SheetRefusal;

// A number, since no enum crosses the C interface: 0 has the text's length, any other is a refusal's, with 0.
#[repr(C)]
#[derive(Clone, Copy, Debug, PartialEq, Eq)]
pub struct SheetAnswer {
    pub number: u32,
    pub length: u64,
}

impl From<Result<usize, SheetRefusal>> for SheetAnswer {
    ghost from_gives = { λ answer told. told ≡ reported_sheet answer };

    fn from(answer: Result<usize, SheetRefusal>) -> SheetAnswer {
        match answer {
            Ok(size) => SheetAnswer {
                number: 0,
                length: size as u64,
            },
            Err(refusal) => SheetAnswer {
                number: u32::from(refusal),
                length: 0,
            },
        }
    }
}
