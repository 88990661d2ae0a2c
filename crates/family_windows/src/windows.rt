// A pass over a file of any size: a window of it at a time, which begins where a family begins.
ghost use Rattle.std.specs.Prelude.{◌≡◌, ◌+◌, ◌-◌, ◌^◌, ◌≤◌, ◌<◌, min, length, IfOk, IfSome};
ghost use Rattle.family_windows.specs.Stops.{next_window};

use crate::output;
use crate::output::Unread;
use ledger_lines::settings::Handed;
use line_text::lines::Stop;
use std::io::{Read, Seek, SeekFrom};
use std::os::unix::fs::FileTypeExt;
use std::rt::Files;
use std::{fs, io};

// A well-formed family is shorter: 600 records, 9,000 words and eight columns of 1,100 places are below 200,000 bytes.
pub const WINDOW_BYTES: usize = 524288;

// Standard input under the name that opens it as a file, since a pass goes back to its beginning.
const STANDARD_INPUT: &str = "/dev/stdin";

// Where a malformed line begins.
#[derive(Clone, Copy, Debug, PartialEq, Eq)]
pub struct Malformed {
    pub place: usize,
}

impl From<io::Error> for Unread {
    fn from(_error: io::Error) -> Unread {
        Unread::Unreadable
    }
}

// Reads the file from the offset on, and says how many bytes of it stand in the window.
pub fn read_window<F: Read + Seek>(
    file: &mut F,
    offset: usize,
    size: usize,
    window: &mut [u8],
) -> Result<usize, Unread>
    requires { (offset < size) × (size < 2 ^ 63) }
    ensures { IfOk result (λ got. got ≡ min (size - offset) (length window.new)) }
{
    let expected = (size - offset).min(window.len());
    file.seek(SeekFrom::Start(offset as u64))?;
    file.read_exact(&mut window[..expected])?;
    Ok(expected)
}

// Where the next window begins, and what is handed there. A family that the window cuts begins the next one, the lines in front of it
// read; but nothing follows the last window, and no well-formed family fills one.
#[tactic(auto, unfolding(crate::specs::Stops::next_window))]
pub fn next_window(
    begun: Result<(Handed, usize), Stop>,
    stop: Stop,
    ends: bool,
) -> Result<(Handed, usize), Malformed>
    ensures { result ≡ next_window begun stop ends }
{
    let place = match stop {
        Stop::Malformed(place) => return Err(Malformed { place }),
        Stop::Cut(place) => place,
    };
    match begun {
        Ok((handed, family)) if !ends && 0 < family => Ok((handed, family)),
        _ => Err(Malformed { place }),
    }
}

fn say_read_twice(rt: &impl Eprint) {
    let _ = rt.eprintln("the input is read twice: it has to be a file, and not a pipe");
}

// To open a pipe or a socket anew could wait for ever.
fn is_stream(rt: &impl Files) -> bool {
    fs::metadata(rt, STANDARD_INPUT).is_ok_and(|known| {
        let kind = known.file_type();
        kind.is_fifo() | kind.is_socket()
    })
}

// Standard input as a file; where it is none, standard error says so.
pub fn open_input<R: Files + Eprint>(rt: &R) -> Option<R::File> {
    if is_stream(rt) {
        say_read_twice(rt);
        return None;
    }
    match fs::open(rt, STANDARD_INPUT) {
        Ok(file) => Some(file),
        Err(error) => {
            output::say_failed(rt, "standard input", error);
            None
        }
    }
}

// How many bytes a file has; a pipe has no size, and standard error says so.
pub fn file_size(rt: &impl Eprint, file: &mut impl Seek) -> Option<usize>
    ensures { IfSome result (λ size. size < 2 ^ 63) }
{
    let Ok(size) = file.seek(SeekFrom::End(0)) else {
        say_read_twice(rt);
        return None;
    };
    (size <= i64::MAX as u64).then_some(size as usize)
}
