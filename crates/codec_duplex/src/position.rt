// One position of a duplex from the same position of its two strands.
ghost use Rattle.std.specs.Prelude.{cond, ◌||◌, eqb, ◌≡◌, ◌+◌, ◌-◌, min, max, pos};
ghost use Rattle.caller.specs.Short.{short_error};
ghost use Rattle.codec_duplex.specs.Position.{has_data, agreed_quality, differing_quality, both_quality, both_depth, winner, loser, error_where, combined};

use caller::phred::{MAX_PHRED, MIN_PHRED, NO_CALL_BASE, NO_CALL_BASE_LOWER};
use caller::short::{clamp_combined_error_to_fgbio_short, clamp_per_base_to_fgbio_short};

#[derive(Clone, Copy, Debug, Default, PartialEq, Eq)]
pub struct Position {
    pub base: u8,
    pub quality: u8,
    pub depth: u16,
    pub error: u16,
}

// A choice that compiles to no branch. Of whole positions it makes slower code than of their fields.
pub fn pick<T: Copy>(yes: bool, a: T, b: T) -> T
    ensures { result ≡ cond yes a b }
{
    if yes { a } else { b }
}

pub fn has_data(base: u8) -> bool
    ensures { result ≡ has_data base }
{
    (base != NO_CALL_BASE) & (base != NO_CALL_BASE_LOWER)
}

// Two capped qualities have the same capped sum, which needs only 8 bits.
fn agreed_quality(a: u8, b: u8) -> u8
    ensures { result ≡ agreed_quality a b }
{
    (a.min(MAX_PHRED) + b.min(MAX_PHRED)).min(MAX_PHRED)
}

fn differing_quality(a: u8, b: u8) -> u8
    ensures { result ≡ differing_quality a b }
{
    a.abs_diff(b).max(MIN_PHRED)
}

fn both_quality(a: Position, b: Position) -> u8
    ensures { result ≡ both_quality a b }
{
    let agreed = agreed_quality(a.quality, b.quality);
    let differing = differing_quality(a.quality, b.quality);
    pick(a.base == b.base, agreed, differing)
}

// Two capped counts are at most 65,534.
fn capped_sum(a: u16, b: u16) -> u16
    ensures { result ≡ both_depth a b }
{
    (clamp_per_base_to_fgbio_short(a) + clamp_per_base_to_fgbio_short(b)) as u16
}

// The sum may pass 16 bits; that of two capped errors does not, and is clamped to the same.
fn error_sum(a: u16, b: u16) -> u16
    ensures { result ≡ short_error (pos (a + b)) }
{
    clamp_combined_error_to_fgbio_short(i64::from(capped_sum(a, b)))
}

// fgbio takes uppercase N alone for a no-call; lowercase n is padding.
fn is_no_call(a: Position, b: Position) -> bool
    ensures { result ≡ (eqb a.base 78 || eqb b.base 78) }
{
    (a.base == NO_CALL_BASE) | (b.base == NO_CALL_BASE)
}

// Each of the four fields below is chosen with no branch, by the strands that have data and by a no-call on either.

#[tactic(auto, unfolding(crate::specs::Position::combined))]
fn duplex_quality(a: Position, b: Position) -> u8
    ensures { result ≡ (combined a b).quality }
{
    let (a_data, b_data) = (has_data(a.base), has_data(b.base));
    let lone = pick(a_data, a.quality, b.quality);
    let called = pick(a_data & b_data, both_quality(a, b), lone);
    pick(is_no_call(a, b) | !(a_data | b_data), MIN_PHRED, called)
}

#[tactic(auto, unfolding(crate::specs::Position::combined))]
fn duplex_base(a: Position, b: Position) -> u8
    ensures { result ≡ (combined a b).base }
{
    let (a_data, b_data) = (has_data(a.base), has_data(b.base));
    let lone = pick(a_data, a.base, b.base);
    let winner = pick(a.quality < b.quality, b.base, a.base);
    let called = pick(a_data & b_data, winner, lone);
    pick(duplex_quality(a, b) == MIN_PHRED, NO_CALL_BASE, called)
}

#[tactic(auto, unfolding(crate::specs::Position::combined))]
fn duplex_depth(a: Position, b: Position) -> u16
    ensures { result ≡ (combined a b).depth }
{
    let (a_data, b_data) = (has_data(a.base), has_data(b.base));
    let lone = pick(a_data, a.depth, b.depth);
    let called = pick(a_data & b_data, capped_sum(a.depth, b.depth), lone);
    pick(a_data | b_data, called, 0)
}

// Where neither strand has data the bases do not differ.
fn summed_error(differ: bool, a: Position, b: Position) -> u16
    ensures { result ≡ short_error (pos (error_where differ (winner a b) (loser a b))) }
{
    let second = a.quality < b.quality;
    let winner_error = pick(second, b.error, a.error);
    let loser_error = pick(second, a.error, b.error);
    let loser_depth = pick(second, a.depth, b.depth);
    let rest = pick(differ, loser_depth.saturating_sub(loser_error), loser_error);
    error_sum(winner_error, rest)
}

#[tactic(auto, unfolding(crate::specs::Position::combined))]
fn duplex_error(a: Position, b: Position) -> u16
    ensures { result ≡ (combined a b).error }
{
    let (a_data, b_data) = (has_data(a.base), has_data(b.base));
    let both = a_data & b_data;
    let summed = summed_error(both & (a.base != b.base), a, b);
    let lone = pick(a_data, a.error, b.error);
    pick(both | !(a_data | b_data), summed, lone)
}

pub fn combine(a: Position, b: Position) -> Position
    ensures { result ≡ combined a b }
{
    Position {
        base: duplex_base(a, b),
        quality: duplex_quality(a, b),
        depth: duplex_depth(a, b),
        error: duplex_error(a, b),
    }
}
