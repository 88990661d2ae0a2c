// Nothing of a family, and behind the last the samples' sheet.
ghost use Rattle.std.specs.Prelude.{[], ◌≡◌};
ghost use Rattle.std.proofs.Math.Dec.{lit≤};
ghost use Rattle.family_calls.specs.Ledgers.{HandedOn};

use family_calls::calls::call_family;
use family_calls::columns::Columns;
use family_calls::samples::write_samples;
use family_text::call::Family;
use family_windows::service::Service;
use ledger_lines::settings::Handed;
use table_text::page::Page;

pub struct SheetAlone;

impl Service for SheetAlone {
    const ROOM: usize = 0;

    ghost ROOM = { 0 };

    ghost hands_on = { HandedOn };

    ghost writes = { λ number family before after text. text ≡ [] };

    fn answer(_page: &mut Page, _number: u64, family: &Family<'_>, handed: &mut Handed) {
        let _answer = call_family(family, handed, &mut Columns::new());
    }

    fn end(rt: &(impl Print + Eprint), page: &mut Page, handed: &Handed) {
        write_samples(rt, &handed.samples, page.bytes);
    }

    ghost fits = { lit≤ tt };
}
