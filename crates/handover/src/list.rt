// What is handed over of each family, and the sheets behind it.
ghost use Rattle.std.proofs.Math.Dec.{lit≤};
ghost use Rattle.family_calls.specs.Ledgers.{HandedOn};
ghost use Rattle.family_calls.specs.Written.{WritesAnswer};
ghost use Rattle.handover_text.specs.Handover.{handover_text};

use answer_text::{family_answer, sample_line};
use family_calls::calls::call_family;
use family_calls::columns::Columns;
use family_calls::samples::write_samples;
use family_text::call::Family;
use family_windows::output;
use family_windows::service::Service;
use handover_text::handover::write_handover;
use handover_text::sheet::{SHEET_BYTES, write_sheet};
use ledger_lines::settings::Handed;
use table_text::page::Page;

pub struct HandedOver;

impl Service for HandedOver {
    // As for a whole answer and the line of its sample's ledger: both programs write out at the same families.
    const ROOM: usize = family_answer::ANSWER_BYTES + sample_line::SAMPLE_BYTES;

    ghost ROOM = { 113239 };

    ghost hands_on = { HandedOn };

    ghost writes = { λ number family before after. WritesAnswer (λ answer left. handover_text number answer left.listed_records left.listed_reasons) family before };

    fn answer(page: &mut Page, number: u64, family: &Family<'_>, handed: &mut Handed) {
        let mut columns = Columns::new();
        let answer = call_family(family, handed, &mut columns);
        let left = columns.left();
        write_handover(page, number, answer, left.listed, left.reasons);
    }

    // The sheet of the run's ledger and, where samples are named, theirs.
    fn end(rt: &(impl Print + Eprint), page: &mut Page, handed: &Handed) {
        output::make_room(rt, page, SHEET_BYTES);
        write_sheet(page, handed.ledger);
        output::write_out(rt, page.text());
        if handed.sample.is_some() {
            write_samples(rt, &handed.samples, page.bytes);
        }
    }

    ghost fits = { lit≤ tt };
}
