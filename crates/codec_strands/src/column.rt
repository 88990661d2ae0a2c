// One column of a strand, turned round and padded.
ghost use Rattle.std.specs.Prelude.{◌≡◌, ◌≤◌, length, take, replicate};
ghost use Rattle.lists.specs.Written.{written};
ghost use Rattle.codec_strands.specs.Strands.{turned, laid_column};

use crate::layout::Layout;

// std's fill asks of a type parameter that its clone cannot fail.
pub(crate) fn fill<T: Copy>(out: &mut [T], value: T)
    ensures { out.new ≡ replicate (length out.old) value }
{
    for place in out.iter_mut() {
        *place = value;
    }
}

// A loop, of which the compiler makes one copy: copy_from_slice would have the archive for C ask for memmove.
pub(crate) fn copy<T: Copy>(column: &[T], places: &mut [T])
    requires { length places.old ≡ length column.now }
    ensures { places.new ≡ column.now }
{
    for i in 0..column.len() {
        places[i] = column[i];
    }
}

// Copies a column, turned round if it is asked to: each place is written once.
fn copy_turned<T: Copy>(column: &[T], reversed: bool, places: &mut [T])
    requires { length places.old ≡ length column.now }
    ensures { places.new ≡ turned reversed column.now }
{
    if !reversed {
        copy(column, places);
        return;
    }
    let n = column.len();
    for i in 0..n {
        places[i] = column[n - 1 - i];
    }
}

// Turns the first n places round, if it is asked to. n and no part of the slice: what lies behind it is promised unchanged; the flag goes down,
// since a clause on each column has it.
pub fn turn<T>(column: &mut [T], n: usize, reversed: bool)
    requires { n ≤ length column.old }
    ensures { column.new ≡ written (turned reversed (take n column.old)) column.old }
{
    if reversed {
        column[..n].reverse();
    }
}

// Writes a column as its strand lies, with padding in the other places of the duplex.
pub fn write_column<T: Copy>(column: &[T], pad: T, layout: Layout, out: &mut [T])
    requires fits { length column.now ≤ layout.length }
    requires room { layout.length ≤ length out.old }
    ensures { out.new ≡ written (laid_column layout pad column.now) out.old }
{
    let out = &mut out[..layout.length];
    fill(out, pad);
    let start = layout.start(column.len());
    let places = &mut out[start..start + column.len()];
    copy_turned(column, layout.reversed, places);
}
