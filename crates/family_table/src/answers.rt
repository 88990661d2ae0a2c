// Each answer whole, as programs read it.
ghost use Rattle.std.specs.Prelude.{◌≡◌, ◌++◌};
ghost use Rattle.std.proofs.Math.Dec.{lit≤};
ghost use Rattle.table_text.specs.Page.{HasRoom, Appends};
ghost use Rattle.answer_text.specs.FamilyText.{family_text, Answered};
ghost use Rattle.answer_text.specs.Left.{left_shown};
ghost use Rattle.answer_text.specs.SampleText.{sample_text};
ghost use Rattle.family_calls.specs.Ledgers.{HandedOn};
ghost use Rattle.family_calls.specs.Written.{WritesAnswer};

use answer_text::left::Left;
use answer_text::{family_answer, sample_line};
use codec_family::answer::Answer;
use family_calls::calls::call_family;
use family_calls::columns::Columns;
use family_text::call::Family;
use family_windows::output;
use family_windows::service::Service;
use ledger_lines::settings::Handed;
use table_text::page::Page;

// The answer, and behind it the line of its sample.
fn write_answer(page: &mut Page, answer: Answer, left: &Left<'_>, after: &Handed)
    requires answered { Answered answer (left_shown left.now) }
    requires room { HasRoom 113239 page.old }
    ensures { Appends (family_text answer (left_shown left.now) ++ sample_text after.now.sample after.now.samples) page.old page.new }
{
    family_answer::write_family_answer(page, answer, left);
    sample_line::write_sample(page, after.sample, &after.samples);
}

pub struct Answers;

impl Service for Answers {
    // The longest answer, and the line of its sample's ledger.
    const ROOM: usize = family_answer::ANSWER_BYTES + sample_line::SAMPLE_BYTES;

    ghost ROOM = { 113239 };

    ghost hands_on = { HandedOn };

    ghost writes = { λ number family before after. WritesAnswer (λ answer left. family_text answer left ++ sample_text after.sample after.samples) family before };

    fn answer(page: &mut Page, _number: u64, family: &Family<'_>, handed: &mut Handed) {
        let mut columns = Columns::new();
        let answer = call_family(family, handed, &mut columns);
        write_answer(page, answer, &columns.left(), handed);
    }

    fn end(rt: &(impl Print + Eprint), page: &mut Page, _handed: &Handed) {
        output::write_out(rt, page.text());
    }

    ghost fits = { lit≤ tt };
}
