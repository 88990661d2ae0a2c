// The marks of a side's records: one bit a record, in eight words.
ghost use Rattle.std.specs.Prelude.{◌≡◌, ◌≤◌, length};
ghost use Rattle.codec_records.specs.Marks.{word_of, marks, flagged, side_flags};
ghost use Rattle.codec_records.specs.Records.{Below};

// Sets the flag of each record of a side.
pub fn flag_records(side: &[usize], flags: &mut [bool])
    requires { Below side.now (length flags.old) }
    ensures { flags.new ≡ flagged side.now flags.old }
{
    for &record in side {
        flags[record] = true;
    }
}

// The word whose bits are up to 64 flags, the first flag lowest.
fn word_of(flags: &[bool]) -> u64
    requires { length flags.now ≤ 64 }
    ensures { result ≡ word_of flags.now }
{
    let mut word = 0;
    for &flag in flags.iter().rev() {
        word = word * 2 + u64::from(flag);
    }
    word
}

// The marks of up to 512 flags. Words that no flag reaches are 0 from the start.
pub fn marks_of(flags: &[bool]) -> [u64; 8]
    requires { length flags.now ≤ 512 }
    ensures { result ≡ marks flags.now }
{
    let mut words = [0; 8];
    for (w, part) in flags.chunks(64).enumerate() {
        words[w] = word_of(part);
    }
    words
}

// The marks of a side's records among the first n of a family.
pub fn mark_words(side: &[usize], n: usize) -> [u64; 8]
    requires below { Below side.now n }
    requires n_bound { n ≤ 512 }
    ensures { result ≡ marks (side_flags side.now n) }
{
    let mut flags = [false; 512];
    flag_records(side, &mut flags);
    marks_of(&flags[..n])
}
