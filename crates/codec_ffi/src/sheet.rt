// The sheet of the samples, exported.
ghost use Rattle.std.specs.Prelude.{◌≡◌};
ghost use Rattle.sheet_text.specs.Reported.{reported_sheet};
ghost use Rattle.sheet_text.specs.Sheet.{sheet_answer, sheet_buffer};

use sheet_text::report::SheetAnswer;
use sheet_text::sheet::write_sheet;

// The samples' ledgers as text at the front of a lent buffer.
#[unsafe(no_mangle)]
pub extern "C" fn codec_ffi_sheet(samples: &[u64; 1920], out: &mut [u8]) -> SheetAnswer
    ensures value { result ≡ reported_sheet (sheet_answer samples.now out.old) }
    ensures out_after { out.new ≡ sheet_buffer samples.now out.old }
{
    SheetAnswer::from(write_sheet(samples, out))
}
