// What selection alone answers to each family.
ghost use Rattle.std.specs.Prelude.{◌≡◌};
ghost use Rattle.std.proofs.Math.Dec.{lit≤};
ghost use Rattle.answer_text.specs.SelectionText.{WritesSelection};
ghost use Rattle.record_selection.specs.Selecting.{Selects};

use answer_text::selection_text;
use codec_records::columns::gather;
use family_text::call::Family;
use family_windows::output;
use family_windows::service::Service;
use ledger_lines::settings::Handed;
use record_selection::alone::select_marked;
use table_text::page::Page;

// Selection asks neither for a ledger nor for strands.
pub struct Selecting;

impl Service for Selecting {
    const ROOM: usize = selection_text::ANSWER_BYTES;

    ghost ROOM = { 433 };

    ghost hands_on = { λ family before after. after ≡ before };

    ghost writes = { λ number family before after. WritesSelection (Selects family.header.options family.header.records family.records family.words) };

    fn answer(page: &mut Page, _number: u64, family: &Family<'_>, _handed: &mut Handed) {
        let header = family.header;
        let columns = gather(family.records, header.records);
        let selection = select_marked(&columns, family.words, header.options);
        selection_text::write_selection(page, selection);
    }

    fn end(rt: &(impl Print + Eprint), page: &mut Page, _handed: &Handed) {
        output::write_out(rt, page.text());
    }

    ghost fits = { lit≤ tt };
}
