// The columns of a duplex.
ghost use Rattle.std.specs.Prelude.{Bool, ℕ, ◌≡◌, ◌≤◌, ◌<◌, length};
ghost use Rattle.lists.specs.Written.{written};
ghost use Rattle.codec_duplex.specs.Columns.{position_at, combined_column, HasLength, Fitting};
ghost use Rattle.codec_duplex.specs.Filled.{Filled};
ghost use Rattle.codec_duplex.specs.Kept.{each_length, columns_fit};
ghost use Rattle.codec_duplex.specs.Lent.{kept_of, held, kept_in, held_in, SameLoans};
ghost use Rattle.codec_duplex.specs.declared.position.Position.{Position as ThePosition};

use crate::bases::combine_bases;
use crate::counts::CountUnit;
use crate::position::{Position, combine};
use crate::strand::{Strand, StrandMut};

// No unit of depths or errors is left over, and each column's length is right.
fn each_length<U: CountUnit, F: Fn(usize) -> bool>(s: &Strand<'_, U>, is_right: F) -> bool
    requires { F.IsAlwaysCallable is_right }
    ensures { (test : ℕ → Bool) → ((n : ℕ) (r : Bool) → F.post is_right n r → r ≡ test n) → result ≡ each_length U.coding test (kept_of s.now) }
{
    let (Some(depths), Some(errors)) = (U::count(s.depths), U::count(s.errors)) else {
        return false;
    };
    is_right(s.bases.len()) && is_right(s.quals.len()) && is_right(depths) && is_right(errors)
}

// The columns are equally long, up to 2,048, and no result is shorter.
#[tactic(auto, unfolding(crate::specs::Kept::columns_fit))]
pub fn columns_fit<U: CountUnit>(a: &Strand<'_, U>, b: &Strand<'_, U>, out: &Strand<'_, U>) -> bool
    ensures { result ≡ columns_fit U.coding (kept_of a.now) (kept_of b.now) (kept_of out.now) }
{
    let n = a.len();
    let are_equal = each_length(a, |m| n == m) & each_length(b, |m| n == m);
    let have_room = (n <= 2048) & each_length(out, |m| n <= m);
    are_equal & have_room
}

fn position_at<U: CountUnit>(s: &Strand<'_, U>, i: usize) -> Position
    requires { (i < length s.now.bases.now) × HasLength (length s.now.bases.now) (held U.coding s.now) }
    ensures { result ≡ position_at (held U.coding s.now) i }
{
    Position {
        base: s.bases[i],
        quality: s.quals[i],
        depth: U::read(s.depths, i),
        error: U::read(s.errors, i),
    }
}

fn combine_counts<U: CountUnit>(
    a: &Strand<'_, U>,
    b: &Strand<'_, U>,
    depths: &mut [U],
    errors: &mut [U],
)
    requires first { HasLength (length a.now.bases.now) (held U.coding a.now) }
    requires second { HasLength (length a.now.bases.now) (held U.coding b.now) }
    requires room { (length a.now.bases.now ≤ length (U.coding.counts depths.old)) × (length a.now.bases.now ≤ length (U.coding.counts errors.old)) }
    ensures depths { depths.new ≡ written (U.coding.units (combined_column ThePosition.depth (held U.coding a.now) (held U.coding b.now))) depths.old }
    ensures errors { errors.new ≡ written (U.coding.units (combined_column ThePosition.error (held U.coding a.now) (held U.coding b.now))) errors.old }
{
    for i in 0..a.len() {
        let Position { depth, error, .. } = combine(position_at(a, i), position_at(b, i));
        U::write(depths, i, depth);
        U::write(errors, i, error);
    }
}

// Writes the duplex into the first places of the four results.
pub fn combine_columns<U: CountUnit>(
    a: &Strand<'_, U>,
    b: &Strand<'_, U>,
    out: &mut StrandMut<'_, U>,
)
    requires { Fitting (held U.coding a.now) (held U.coding b.now) (held_in U.coding out.old) }
    ensures filled { Filled U.coding (held U.coding a.now) (held U.coding b.now) (kept_in out.old) (kept_in out.new) }
    ensures same { SameLoans out.old out.new }
{
    combine_bases(a.bases, a.quals, b.bases, b.quals, out.bases, out.quals);
    combine_counts(a, b, out.depths, out.errors);
}
