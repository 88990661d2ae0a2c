// Steps 1 to 7 of a family, on the columns of its records. The family call takes what they chose: the columns go no further.
ghost use Rattle.std.specs.Prelude.{List, ◌≡◌, ◌≤◌, take};
ghost use Rattle.codec_records.specs.Records.{Holds, room_of};
ghost use Rattle.codec_records.specs.declared.records.Record.{Record as AnyRecord};
ghost use Rattle.codec_caller.specs.Settling.{Selected};

use codec_records::columns::Columns;
use codec_records::options::Options;
use codec_records::room::room;
use codec_records::side::Sides;
use codec_select::selection::Decision;
use record_selection::alone::select_records;

// How many records were given, the decision of steps 1 to 7, and the fates so far in the first places.
#[derive(Drop)]
pub struct Chosen {
    pub given: usize,
    pub decision: Decision,
    pub fates: [u8; 512],
}

// Where there are too many records the columns hold none of them.
pub fn select_fates(columns: &Columns, ops: &[u32], options: Options) -> Chosen
    ensures given { result.given ≡ columns.now.given }
    ensures selected { (rs : List AnyRecord) → (columns.now.given ≤ 512 → Holds columns.now columns.now.given rs) → Selected options columns.now.given rs ops.now result.decision (take (room_of columns.now.given) result.fates) }
{
    let n = room(columns.given);
    let mut fates = [0; 512];
    let mut sides = Sides::new();
    let decision = select_records(columns, ops, options, &mut fates[..n], &mut sides);
    Chosen {
        given: columns.given,
        decision,
        fates,
    }
}
