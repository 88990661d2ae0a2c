// Selection alone, exported.
ghost use Rattle.std.specs.Prelude.{length};
ghost use Rattle.record_selection.specs.Reported.{SelectingRecords};

use codec_records::columns::gather;
use codec_records::options::Options;
use codec_records::records::Record;
use record_selection::report::{SelectAnswer, report_columns};

// Steps 1 to 7 of a family, without a ledger.
#[unsafe(no_mangle)]
pub extern "C" fn codec_ffi_select(
    records: &[Record],
    ops: &[u32],
    options: Options,
) -> SelectAnswer
    ensures { SelectingRecords options (length records.now) records.now ops.now result }
{
    let columns = gather(records, records.len());
    report_columns(&columns, ops, options)
}
