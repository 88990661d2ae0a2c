// Columns of depths and errors, whatever their units are.
ghost use Rattle.std.specs.Prelude.{◌≡◌, ◌+◌, ◌*◌, ◌<◌, [], if◌then◌else◌, Some, None, length, get_or};
ghost use Rattle.codec_duplex.specs.Units.{Coding, Writes, words, byte_pairs};

// A count is a 16-bit number; a column of them is one of such units.
pub trait CountUnit: Copy {
    ghost coding: { Coding Self };

    // How many counts a column is, if no unit is left over.
    fn count(column: &[Self]) -> Option<usize>
        ensures { result ≡ (if coding.is_whole (length column.now) then Some (length (coding.counts column.now)) else None) };

    fn read(column: &[Self], i: usize) -> u16
        requires { i < length (coding.counts column.now) }
        ensures { result ≡ get_or (coding.counts column.now) i 0 };

    fn write(column: &mut [Self], i: usize, value: u16)
        requires { i < length (coding.counts column.old) }
        ensures { Writes coding i value column.old column.new };

    ghost none: { coding.units [] ≡ [] };
}

impl CountUnit for u16 {
    ghost use Rattle.std.specs.Prelude.{refl};
    ghost use Rattle.codec_duplex.specs.Units.{shorts};

    ghost coding = { shorts };

    ghost none = { refl };

    fn count(column: &[u16]) -> Option<usize> {
        Some(column.len())
    }

    fn read(column: &[u16], i: usize) -> u16 {
        column[i]
    }

    #[tactic(auto, using(crate::proofs::Units::shorts_written))]
    fn write(column: &mut [u16], i: usize, value: u16) {
        column[i] = value;
    }
}

#[tactic(auto, using(crate::proofs::Units::words_at))]
fn word_at(bytes: &[u8], i: usize) -> u16
    requires { i * 2 + 1 < length bytes.now }
    ensures { result ≡ get_or (words bytes.now) i 0 }
{
    u16::from_le_bytes([bytes[i * 2], bytes[i * 2 + 1]])
}

fn put_word(bytes: &mut [u8], i: usize, value: u16)
    requires { i * 2 + 1 < length bytes.old }
    ensures { Writes byte_pairs i value bytes.old bytes.new }
{
    let [low, high] = value.to_le_bytes();
    bytes[i * 2] = low;
    bytes[i * 2 + 1] = high;
}

// One byte of a pair, low byte first.
impl CountUnit for u8 {
    ghost use Rattle.codec_duplex.specs.Units.{low_first-none};

    ghost coding = { byte_pairs };

    ghost none = { low_first-none };

    #[tactic(auto, using(crate::proofs::Units::length_words))]
    fn count(column: &[u8]) -> Option<usize> {
        (column.len() % 2 == 0).then_some(column.len() / 2)
    }

    fn read(column: &[u8], i: usize) -> u16 {
        word_at(column, i)
    }

    fn write(column: &mut [u8], i: usize, value: u16) {
        put_word(column, i, value);
    }
}
