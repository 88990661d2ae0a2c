// The read position of a reference position.
ghost use Rattle.std.specs.Prelude.{◌≡◌, ◌+◌, ◌≤◌, ◌<◌, ◌^◌, length};
ghost use Rattle.raw_bam.specs.ReadPosition.{is_aligned, has_aligned_base, inside, read_position};

use crate::cigar::{bases_of, op_length};
use crate::operation::consumes;

fn is_aligned(word: u32) -> bool
    ensures { result ≡ is_aligned word }
{
    let what = consumes(word);
    what.read && what.reference
}

fn has_aligned_base(word: u32) -> bool
    ensures { result ≡ has_aligned_base word }
{
    is_aligned(word) && 0 < op_length(word)
}

// With the read bases before the operation, and whether M, = or X came before it. A flag and no closure: it asks
// another position, inside D or N alone.
fn position_inside(word: u32, k: u64, read: u64, aligned: bool, ask_last: bool) -> Option<u64>
    requires { read + k < 2 ^ 63 }
    ensures { result ≡ inside ask_last read aligned word k }
{
    if is_aligned(word) {
        return Some(read + k + 1);
    }
    (ask_last && aligned).then_some(read)
}

// The read position of a reference position in a record that starts at `start`, from 1; inside D or N that of the last read base
// before, inserted and clipped ones too, where the last base is asked for and M, = or X came before.
pub fn read_pos_at_ref_pos_raw(
    ops: &[u32],
    start: u64,
    position: u64,
    ask_last: bool,
) -> Option<u64>
    requires { length ops.now ≤ 8192 }
    ensures { result ≡ read_position ask_last ops.now start position }
{
    let mut k = position.checked_sub(start)?;
    let mut read = 0;
    let mut aligned = false;
    for &word in ops {
        let bases = bases_of(word);
        if k < bases.reference {
            return position_inside(word, k, read, aligned, ask_last);
        }
        aligned |= has_aligned_base(word);
        read += bases.read;
        k -= bases.reference;
    }
    None
}
