// The lines of a text, and where its reading stops.
ghost use Rattle.std.specs.Prelude.{◌≡◌, ◌≤◌, ◌<◌, length, IfOk};
ghost use Rattle.line_text.specs.Reading.{ReadsLine, LineSaid, lines_before};

use table_text::parts;

// Where the line begins that is malformed, or that the text ends in.
#[derive(Clone, Copy, Debug, PartialEq, Eq)]
pub enum Stop {
    Malformed(usize),
    Cut(usize),
}

// The line that begins at a place, and where the line after it begins. A text and a place, no cursor that moves: of a family that is cut the
// reading begins again where it began.
pub fn line_at(text: &[u8], at: usize) -> Result<(&[u8], usize), Stop>
    requires { at ≤ length text.now }
    ensures reads { ReadsLine text.now at result }
    ensures onward { IfOk result (λ line. at < line.1) }
{
    let end = parts::part_end(text, at, b'\n');
    if end < text.len() {
        Ok((&text[at..end], end + 1))
    } else {
        Err(Stop::Cut(at))
    }
}

// What the line that begins at a place says, and where the line after it begins.
pub fn next_line<'a, T, F: FnOnce(&'a [u8]) -> Option<T>>(
    text: &'a [u8],
    at: usize,
    read: F,
) -> Result<(T, usize), Stop>
    requires inside { at ≤ length text.now }
    requires callable { F.IsAlwaysCallable read }
    ensures { LineSaid (F.post read) text.now at result }
{
    let (line, after) = line_at(text, at)?;
    let said = read(line).ok_or(Stop::Malformed(at))?;
    Ok((said, after))
}

// How many lines end before a place; the line that begins there has the number after them.
#[tactic(auto, unfolding(crate::specs::Reading::lines_before))]
pub fn lines_before(text: &[u8], place: usize) -> usize
    requires { place ≤ length text.now }
    ensures value { result ≡ lines_before text.now place }
    ensures upper_bound { result ≤ place }
{
    text[..place].iter().filter(|&&byte| byte == b'\n').count()
}
