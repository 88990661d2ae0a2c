// A pass over a file of any size: a window of it at a time, and the families of a window one after the other.
ghost use Rattle.std.specs.Prelude.{◌≡◌, ◌+◌, ◌^◌, ◌≤◌, ◌<◌, length, IfOk, IfErr};
ghost use Rattle.line_text.specs.Reading.{lines_from, stop_place};
ghost use Rattle.family_windows.specs.Going.{Goes};
ghost use Rattle.family_windows.specs.Pages.{KeepsBuffer};

use crate::output::Unread;
use crate::service::Service;
use crate::windows::Malformed;
use crate::{output, windows};
use family_text::family;
use family_text::room::Room;
use ledger_lines::ledgers;
use ledger_lines::settings::Handed;
use line_text::lines;
use line_text::lines::Stop;
use std::io::{Read, Seek};
use table_text::page::Page;

// Room for the longest answer, and for many of the usual ones.
pub const OUTPUT_BYTES: usize = 262144;

// What goes from family to family: what the next is handed, and its number.
#[derive(Clone, Copy)]
pub struct Course {
    pub handed: Handed,
    pub number: u64,
}

// Answers the family whose lines begin at a place, and says where the lines behind it begin.
fn answer_next<S: Service, R: Print + Eprint>(
    rt: &R,
    text: &[u8],
    at: usize,
    course: &mut Course,
    room: &mut Room,
    page: &mut Page,
) -> Result<usize, Stop>
    requires at_in_bounds { at < length text.now }
    requires roomy { S.ROOM ≤ length page.old.bytes.now }
    ensures kept { KeepsBuffer page.old page.new }
    ensures onward { IfOk result (λ after. (at < after) × (after ≤ length text.now)) }
    ensures within { IfErr result (λ stop. stop_place stop ≤ length text.now) }
    ensures goes { IfOk result (λ after. Goes S.hands_on course.old.handed (lines_from text.now at) course.new.handed (lines_from text.now after)) }
    ensures unchanged { IfErr result (λ stop. course.new ≡ course.old) }
{
    let (call, after) = family::next_family(text, at, course.handed, room)?;
    course.handed = call.handed;
    if let Some(family) = &call.family {
        output::make_room(rt, page, S::ROOM);
        S::answer(page, course.number, family, &mut course.handed);
        course.number = course.number.saturating_add(1);
    }
    Ok(after)
}

// Answers the families of a window, and says where the next begins; the file may end where the window does.
// A family's end says where the next begins: no range or chain has these places.
fn answer_window<S: Service, R: Print + Eprint>(
    rt: &R,
    text: &[u8],
    ends: bool,
    course: &mut Course,
    room: &mut Room,
    page: &mut Page,
) -> Result<usize, Malformed>
    requires text_nonzero { 0 < length text.now }
    requires roomy { S.ROOM ≤ length page.old.bytes.now }
    ensures kept { KeepsBuffer page.old page.new }
    ensures onward { IfOk result (λ after. (0 < after) × (after ≤ length text.now)) }
    ensures within { IfErr result (λ malformed. malformed.place ≤ length text.now) }
    ensures goes { IfOk result (λ after. Goes S.hands_on course.old.handed (lines_from text.now 0) course.new.handed (lines_from text.now after)) }
{
    let mut at = 0;
    while at < text.len() {
        match answer_next::<S, R>(rt, text, at, course, room, page) {
            Ok(after) => at = after,
            Err(stop) => {
                let begun = ledgers::read_ledgers(text, at, course.handed);
                let (handed, family) = windows::next_window(begun, stop, ends)?;
                course.handed = handed;
                return Ok(family);
            }
        }
    }
    Ok(at)
}

// Reads the families of a file that has so many bytes, and answers each through the output that is lent.
pub fn read_windows<S: Service, R: Print + Eprint, F: Read + Seek>(
    rt: &R,
    file: &mut F,
    size: usize,
    output: &mut [u8],
) -> Result<(), Unread>
    requires size_is_small { size < 2 ^ 63 }
    requires roomy { S.ROOM ≤ length output.old }
{
    let mut window = [0u8; windows::WINDOW_BYTES];
    let mut page = Page::new(output);
    let mut room = Room::new();
    let mut course = Course {
        handed: Handed::default(),
        number: 1,
    };
    let mut offset = 0;
    let mut lines_passed = 0;
    while offset < size {
        let got = windows::read_window(file, offset, size, &mut window)?;
        let text = &window[..got];
        let ends = got == size - offset;
        match answer_window::<S, R>(rt, text, ends, &mut course, &mut room, &mut page) {
            Ok(after) => {
                lines_passed += lines::lines_before(text, after);
                offset += after;
            }
            Err(Malformed { place }) => {
                let line = lines_passed + lines::lines_before(text, place) + 1;
                return Err(Unread::Malformed(line));
            }
        }
    }
    S::end(rt, &mut page, &course.handed);
    Ok(())
}

// An output in which each service has room.
fn read_wide<S: Service, R: Print + Eprint, F: Read + Seek>(
    rt: &R,
    file: &mut F,
    size: usize,
    output: &mut [u8],
) -> Result<(), Unread>
    requires size_is_small { size < 2 ^ 63 }
    requires roomy { 262144 ≤ length output.old }
{
    read_windows::<S, R, F>(rt, file, size, output)
}

// The same with an output of its own.
pub fn read_families<S: Service, R: Print + Eprint, F: Read + Seek>(
    rt: &R,
    file: &mut F,
    size: usize,
) -> Result<(), Unread>
    requires { size < 2 ^ 63 }
{
    read_wide::<S, R, F>(rt, file, size, &mut [0; OUTPUT_BYTES])
}
