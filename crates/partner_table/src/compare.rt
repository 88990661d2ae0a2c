// Both tables are read whole, ours first; then their lines are compared with what the position rules give.
ghost use Rattle.std.specs.Prelude.{◌≡◌, ◌≤◌, length};
ghost use Rattle.table_text.specs.InputTable.{table_of, table_from};
ghost use Rattle.table_text.specs.OutputReading.{partner_table, partner_from};
ghost use Rattle.partner_table.specs.Check.{first_wrong_field, first_wrong, combined_rows, compared, checked, WellFormed};

use crate::fault::{Fault, Field, Whose};
use codec_duplex::position::{Position, combine};
use table_text::{parts, reading};

// The first field that is not right.
#[tactic(auto, unfolding(crate::specs::Check::first_wrong_field))]
pub fn first_wrong_field(right: Position, given: Position) -> Option<Field>
    ensures { result ≡ first_wrong_field right given }
{
    if right.base != given.base {
        Some(Field::Base)
    } else if right.quality != given.quality {
        Some(Field::Quality)
    } else if right.depth != given.depth {
        Some(Field::Depth)
    } else if right.error != given.error {
        Some(Field::Error)
    } else {
        None
    }
}

// The first wrong line of those that both tables have, where line 2 begins at `start` in ours and at `given` in theirs.
// The end of a row says where the next begins, in each table for itself: no range and no chain has these places.
fn compare_lines(ours: &[u8], start: usize, theirs: &[u8], given: usize) -> Result<(), Fault>
    requires { (start ≤ length ours.now) × (given ≤ length theirs.now) }
    ensures { result ≡ first_wrong 2 (combined_rows (table_from ours.now 2 start).rows) (partner_from theirs.now 2 given).rows }
{
    let mut line = 2;
    let mut at = start;
    let mut given_at = given;
    while at < ours.len() {
        let Some(((first, second), after)) = reading::next_row(ours, line, at) else {
            return Ok(());
        };
        if theirs.len() <= given_at {
            return Ok(());
        }
        let Some((position, given_after)) = reading::next_row(theirs, line, given_at) else {
            return Ok(());
        };
        let right = combine(first, second);
        if let Some(field) = first_wrong_field(right, position) {
            return Err(Fault::Wrong { line, field });
        }
        line += 1;
        at = after;
        given_at = given_after;
    }
    Ok(())
}

// Two well-formed tables: first their numbers of lines, then the lines.
fn compare_tables(ours: &[u8], theirs: &[u8]) -> Result<(), Fault>
    requires { WellFormed (table_of ours.now) × WellFormed (partner_table theirs.now) }
    ensures { result ≡ compared (table_of ours.now).rows (partner_table theirs.now).rows }
{
    if parts::ended_parts(ours, b'\n') != parts::ended_parts(theirs, b'\n') {
        return Err(Fault::UnequalLines);
    }
    let Some(our_start) = reading::after_names::<(Position, Position)>(ours) else {
        return Ok(());
    };
    let Some(their_start) = reading::after_names::<Position>(theirs) else {
        return Ok(());
    };
    compare_lines(ours, our_start, theirs, their_start)
}

// Whether their output table is what the position rules give for our input table.
#[tactic(auto, using(crate::proofs::Checks::ours_malformed, crate::proofs::Checks::theirs_malformed, crate::proofs::Checks::both_formed))]
pub fn check_tables(ours: &[u8], theirs: &[u8]) -> Result<(), Fault>
    ensures { result ≡ checked ours.now theirs.now }
{
    if let Err(malformed) = reading::check_table::<(Position, Position)>(ours) {
        return Err(Fault::Malformed {
            whose: Whose::Ours,
            line: malformed.line,
        });
    }
    if let Err(malformed) = reading::check_table::<Position>(theirs) {
        return Err(Fault::Malformed {
            whose: Whose::Theirs,
            line: malformed.line,
        });
    }
    compare_tables(ours, theirs)
}
