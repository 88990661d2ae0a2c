// Selection alone, on the columns of a family's records.
ghost use Rattle.std.specs.Prelude.{List, ◌≡◌, ◌≤◌, length};
ghost use Rattle.codec_records.specs.Records.{Below, Holds, room_of};
ghost use Rattle.codec_records.specs.declared.records.Record.{Record as AnyRecord};
ghost use Rattle.record_selection.specs.Selecting.{SelectsInto, Selects};

use codec_records::columns::Columns;
use codec_records::marks::mark_words;
use codec_records::options::Options;
use codec_records::room::room;
use codec_records::side::Sides;
use codec_select::selection::{Decision, Selection};
use codec_select::steps::select_family;

// Steps 1 to 7, with the fate of each record and the records of each side that stay. The promise is of every list of records that the
// columns hold; of too many they hold none, and they are refused for their number.
pub fn select_records(
    columns: &Columns,
    ops: &[u32],
    options: Options,
    fates: &mut [u8],
    sides: &mut Sides,
) -> Decision
    requires { length fates.old ≡ room_of columns.now.given }
    ensures into { (records : List AnyRecord) → (columns.now.given ≤ 512 → Holds columns.now columns.now.given records) → SelectsInto options columns.now.given records ops.now result fates.new sides.new }
    ensures r1_below { Below sides.new.r1 (room_of columns.now.given) }
    ensures r2_below { Below sides.new.r2 (room_of columns.now.given) }
{
    select_family(&columns.family(ops), options, fates, sides)
}

// Selection alone: the kept records of each side as mark words.
pub fn select_marked(columns: &Columns, ops: &[u32], options: Options) -> Selection
    ensures { (records : List AnyRecord) → (columns.now.given ≤ 512 → Holds columns.now columns.now.given records) → Selects options columns.now.given records ops.now result }
{
    let n = room(columns.given);
    let mut fates = [0; 512];
    let mut sides = Sides::new();
    let decision = select_records(columns, ops, options, &mut fates[..n], &mut sides);
    Selection {
        decision,
        r1: mark_words(sides.r1.as_slice(), n),
        r2: mark_words(sides.r2.as_slice(), n),
    }
}
