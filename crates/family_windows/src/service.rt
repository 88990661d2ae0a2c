// What a program does with the families of a file.
ghost use Rattle.std.specs.Prelude.{List, [], ℕ, ◌≡◌, ◌≤◌, length};
ghost use Rattle.std.proofs.Math.Dec.{lit≤};
ghost use Rattle.table_text.specs.Page.{HasRoom};
ghost use Rattle.family_text.specs.Family.{Family as Shown};
ghost use Rattle.family_text.specs.Shown.{family_in};
ghost use Rattle.ledger_lines.specs.declared.settings.Handed.{Handed as Hands};
ghost use Rattle.family_windows.specs.Pages.{KeepsBuffer, Adds};

use family_text::call::Family;
use ledger_lines::settings::Handed;
use table_text::page::Page;

pub trait Service {
    // How many bytes the answer to a family may have.
    const ROOM: usize;

    ghost ROOM: { ℕ };

    // What a family does to what it is handed.
    ghost hands_on: { Shown → Hands → Hands → Type 0 };

    // Which texts may answer a family that has a number, what it was handed and what it hands on given.
    ghost writes: { ℕ → Shown → Hands → Hands → List ℕ → Type 0 };

    // Answers a family, which has a number, behind what the page has.
    fn answer(page: &mut Page, number: u64, family: &Family<'_>, handed: &mut Handed)
        requires { HasRoom ROOM page.old }
        ensures kept { KeepsBuffer page.old page.new }
        ensures handed_on { hands_on (family_in family.now) handed.old handed.new }
        ensures written { Adds (writes number (family_in family.now) handed.old handed.new) page.old page.new };

    // Writes out what the page has, and what stands behind the last answer.
    fn end(rt: &(impl Print + Eprint), page: &mut Page, handed: &Handed)
        requires { ROOM ≤ length page.old.bytes.now };

    ghost fits: { ROOM ≤ 262144 };
}

// The first pass over a file, which answers nothing.
pub struct Checking;

impl Service for Checking {
    const ROOM: usize = 0;

    ghost ROOM = { 0 };

    ghost hands_on = { λ family before after. after ≡ before };

    ghost writes = { λ number family before after text. text ≡ [] };

    fn answer(_page: &mut Page, _number: u64, _family: &Family<'_>, _handed: &mut Handed) {}

    fn end(_rt: &(impl Print + Eprint), _page: &mut Page, _handed: &Handed) {}

    ghost fits = { lit≤ tt };
}
