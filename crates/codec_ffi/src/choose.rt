// Steps 1 to 7 of a family that is lent as a slice, for the family call. In a function of its own the columns are made in place.
ghost use Rattle.std.specs.Prelude.{◌≡◌, length, take};
ghost use Rattle.codec_records.specs.Records.{room_of};
ghost use Rattle.codec_caller.specs.Settling.{Selected};

use codec_caller::choosing::{Chosen, select_fates};
use codec_records::columns::gather;
use codec_records::options::Options;
use codec_records::records::Record;

pub(crate) fn choose(records: &[Record], ops: &[u32], options: Options) -> Chosen
    ensures given { result.given ≡ length records.now }
    ensures selected { Selected options (length records.now) records.now ops.now result.decision (take (room_of (length records.now)) result.fates) }
{
    let columns = gather(records, records.len());
    select_fates(&columns, ops, options)
}
