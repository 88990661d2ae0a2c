// What the steps read of a family: its records as columns, and the operation words.
ghost use Rattle.std.specs.Prelude.{◌≡◌, ◌+◌, ◌≤◌, ◌<◌, length, get_or, take, drop};
ghost use Rattle.codec_records.specs.Alike.{Alike};

// The part of the words that is a record's.
pub fn operations_of<'a>(ops: &'a [u32], starts: &[u32], counts: &[u32], record: usize) -> &'a [u32]
    requires has_start { «record» < length starts.now }
    requires has_count { «record» < length counts.now }
    requires part { get_or starts.now «record» 0 + get_or counts.now «record» 0 ≤ length ops.now }
    ensures { result.now ≡ take (get_or counts.now «record» 0) (drop (get_or starts.now «record» 0) ops.now) }
{
    let start = starts[record] as usize;
    let end = start + counts[record] as usize;
    &ops[start..end]
}

// Columns and no slice of records: a scan over names or flags alone is compiled to run on many at once.
#[derive(Clone, Copy)]
pub struct Family<'a> {
    // How many records were given. Of more than 512, which are refused for their number, the columns hold none.
    pub given: usize,
    pub flags: &'a [u16],
    pub names: &'a [u32],
    pub verdicts: &'a [bool],
    pub ranks: &'a [i32],
    pub clipped: &'a [u32],
    pub positions: &'a [u32],
    pub starts: &'a [u32],
    pub counts: &'a [u32],
    pub ops: &'a [u32],
    ghost alike: { Alike flags.now names.now verdicts.now ranks.now clipped.now positions.now starts.now counts.now },
}

impl<'a> Family<'a> {
    ghost use Rattle.std.specs.Prelude.{◌≡◌, ◌+◌, ◌≤◌, ◌<◌, length, get_or};
    ghost use Rattle.codec_records.specs.Records.{operations_of};

    pub fn len(&self) -> usize
        ensures { result ≡ length self.now.flags.now }
    {
        self.flags.len()
    }
    // The words that are a record's.
    pub fn operations(&self, record: usize) -> &'a [u32]
        requires record_in_bounds { «record» < length self.now.flags.now }
        requires part_in_bounds { get_or self.now.starts.now «record» 0 + get_or self.now.counts.now «record» 0 ≤ length self.now.ops.now }
        ensures { result.now ≡ operations_of self.now «record» }
    {
        operations_of(self.ops, self.starts, self.counts, record)
    }
}
