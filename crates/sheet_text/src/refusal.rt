// Refusals 10 and 21 of the sheet.
ghost use Rattle.std.specs.Prelude.{◌≡◌, ◌<◌};
ghost use Rattle.codec_stats.specs.Ledger.{too_large};
ghost use Rattle.sample_ledgers.specs.Samples.{ledger_at};
ghost use Rattle.sheet_text.specs.Reported.{refusal_number};
ghost use Rattle.sheet_text.specs.Sheet.{some_too_large, sheet_refusal};

use codec_stats::refusals::is_too_large;
use sample_ledgers::samples::read_sample;

// The buffer that the sheet asks for, however short its text is.
pub const SHEET_BYTES: usize = 16384;

// By its number in the table of refusals.
#[derive(Clone, Copy, Debug, PartialEq, Eq)]
pub enum SheetRefusal {
    LedgerTooLarge = 10,
    BufferTooSmall = 21,
}

impl From<SheetRefusal> for u32 {
    ghost from_gives = { λ refusal n. n ≡ refusal_number refusal };

    fn from(refusal: SheetRefusal) -> u32 {
        refusal as u32
    }
}

// Asked of a sample without a family too.
fn is_sample_too_large(samples: &[u64; 1920], sample: usize) -> bool
    requires { sample < 96 }
    ensures { result ≡ too_large (ledger_at samples.now sample) }
{
    let ledger = read_sample(samples, sample);
    is_too_large(ledger)
}

// A for: of any the check does not see that it is the definition's not all.
fn is_some_too_large(samples: &[u64; 1920]) -> bool
    ensures { result ≡ some_too_large samples.now }
{
    for sample in 0..96 {
        if is_sample_too_large(samples, sample) {
            return true;
        }
    }
    false
}

// Lowest number first.
#[tactic(auto, unfolding(crate::specs::Sheet::sheet_refusal))]
pub(crate) fn refuse_sheet(samples: &[u64; 1920], room: usize) -> Result<(), SheetRefusal>
    ensures { result ≡ sheet_refusal samples.now room }
{
    if is_some_too_large(samples) {
        return Err(SheetRefusal::LedgerTooLarge);
    }
    if room < SHEET_BYTES {
        return Err(SheetRefusal::BufferTooSmall);
    }
    Ok(())
}
