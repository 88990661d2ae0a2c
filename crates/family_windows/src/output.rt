// What the programs write besides answers.
ghost use Rattle.std.specs.Prelude.{◌≤◌, length};
ghost use Rattle.table_text.specs.Page.{HasRoom};
ghost use Rattle.family_windows.specs.Pages.{KeepsBuffer};

use std::io;
use table_text::page::Page;

// Why a file was not read to its end: a line is malformed, told by its number, or the file gives no more.
#[derive(Clone, Copy, Debug, PartialEq, Eq)]
pub enum Unread {
    Malformed(usize),
    Unreadable,
}

// Says on standard error what failed, and why. Nothing is told where that fails too.
pub fn say_failed(rt: &impl Eprint, what: &str, error: io::Error) {
    let _ = eprintln!(rt; "{what}: {error}");
}

// Where standard output took no more, a line on standard error says so.
fn said(rt: &impl Eprint, written: io::Result<()>) {
    if let Err(error) = written {
        say_failed(rt, "standard output", error);
    }
}

// Where standard output takes no more, a line on standard error says so.
pub fn write_out(rt: &(impl Print + Eprint), output: &[u8]) {
    said(rt, rt.write_all(output));
}

// Writes out what the page has where an answer of so many bytes may not fit behind it.
pub fn make_room(rt: &(impl Print + Eprint), page: &mut Page, room: usize)
    requires { room ≤ length page.old.bytes.now }
    ensures roomy { HasRoom room page.new }
    ensures kept { KeepsBuffer page.old page.new }
{
    if page.room() < room {
        write_out(rt, page.text());
        page.end = 0;
    }
}

// A refusal by its number, and what goes with it.
pub fn write_refusal(rt: &(impl Print + Eprint), number: u64, given: u64) {
    said(rt, println!(rt; "refused {number} {given}"));
}

pub fn report(rt: &(impl Print + Eprint), read: Result<(), Unread>) {
    match read {
        Ok(()) => {}
        Err(Unread::Malformed(line)) => write_refusal(rt, 13, line as u64),
        Err(Unread::Unreadable) => {
            let _ = rt.eprintln("the input could not be read to its end");
        }
    }
}

// The name of a file that an argument names stands in front of its answers.
pub fn title(rt: &(impl Print + Eprint), name: &str) {
    said(rt, println!(rt; "== {name}"));
}
