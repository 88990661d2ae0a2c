// The records of a family as columns, by value: a column for each field of a record.
ghost use Rattle.std.specs.Prelude.{◌≡◌, ◌≤◌, length, take};
ghost use Rattle.codec_records.specs.Records.{Holds, LendsFamily};

use crate::family::Family;
use crate::records::Record;
use crate::room::room;

#[derive(Drop)]
pub struct Columns {
    pub given: usize,
    pub flags: [u16; 512],
    pub names: [u32; 512],
    pub verdicts: [bool; 512],
    pub ranks: [i32; 512],
    pub clipped: [u32; 512],
    pub positions: [u32; 512],
    pub starts: [u32; 512],
    pub counts: [u32; 512],
}

// Of a number of records that begin a slice, each field in its column; of more than 512 the number alone.
pub fn gather(records: &[Record], given: usize) -> Columns
    requires { given ≤ 512 → given ≤ length records.now }
    ensures given { result.given ≡ given }
    ensures held { given ≤ 512 → Holds result given (take given records.now) }
{
    let mut columns = Columns {
        given,
        flags: [0; 512],
        names: [0; 512],
        verdicts: [false; 512],
        ranks: [0; 512],
        clipped: [0; 512],
        positions: [0; 512],
        starts: [0; 512],
        counts: [0; 512],
    };
    let n = room(given);
    for (i, record) in records[..n].iter().enumerate() {
        columns.flags[i] = record.flags;
        columns.names[i] = record.name;
        columns.verdicts[i] = record.verdict;
        columns.ranks[i] = record.rank;
        columns.clipped[i] = record.clipped;
        columns.positions[i] = record.position;
        columns.starts[i] = record.start;
        columns.counts[i] = record.count;
    }
    columns
}

impl Columns {
    // The records that there is room for.
    pub fn family<'a>(&'a self, ops: &'a [u32]) -> Family<'a>
        ensures { LendsFamily self.now ops.now result }
    {
        let n = room(self.given);
        Family {
            given: self.given,
            flags: &self.flags[..n],
            names: &self.names[..n],
            verdicts: &self.verdicts[..n],
            ranks: &self.ranks[..n],
            clipped: &self.clipped[..n],
            positions: &self.positions[..n],
            starts: &self.starts[..n],
            counts: &self.counts[..n],
            ops,
        }
    }
}
