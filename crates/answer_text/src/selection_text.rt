// The answer of selection alone as text.
ghost use Rattle.std.specs.Prelude.{◌+◌, ◌≤◌};
ghost use Rattle.table_text.specs.Page.{HasRoom, Appends};
ghost use Rattle.answer_text.specs.SelectionText.{selection_text};

use crate::line::write_line;
use codec_select::selection::{Decision, Selection};
use table_text::page::Page;

// Room for the longest answer: 91 bytes for the line `kept`, and 171 for the eight words of each side.
pub const ANSWER_BYTES: usize = 433;

// Writes the answer behind what the page has.
#[tactic(auto, unfolding(crate::specs::SelectionText::decision_text))]
pub fn write_selection(page: &mut Page, selection: Selection)
    requires { HasRoom 433 page.old }
    ensures appended { Appends (selection_text selection) page.old page.new }
    ensures upper_bound { page.new.end ≤ page.old.end + 433 }
{
    match selection.decision {
        Decision::Kept {
            start,
            end,
            length,
            r1_is_negative,
            r2_is_negative: _,
        } => {
            let numbers = [start, end, length, u64::from(r1_is_negative)];
            write_line(page, b"S kept", &numbers);
            write_line(page, b"K1", &selection.r1);
            write_line(page, b"K2", &selection.r2);
        }
        Decision::Empty => write_line::<u64>(page, b"S empty", &[]),
        Decision::Rejected(reason) => write_line(page, b"S rejected", &[u8::from(reason)]),
        Decision::Refused(refusal) => {
            write_line(
                page,
                b"S refused",
                &[u64::from(refusal.number()), refusal.given() as u64],
            )
        }
    }
}
