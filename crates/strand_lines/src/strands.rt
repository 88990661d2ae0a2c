// The lines of a family after its records: the operation words, and four lines for each strand.
ghost use Rattle.std.specs.Prelude.{◌≡◌, ◌≤◌, length};
ghost use Rattle.std.specs.Option.{option_map};
ghost use Rattle.codec_duplex.specs.Lent.{strand_of};
ghost use Rattle.line_text.specs.Numbers.{words_line};
ghost use Rattle.line_text.specs.Reading.{Reads, lines_from, one_line};
ghost use Rattle.strand_lines.specs.Strands.{strand_from, strand_if};

use crate::column;
use codec_duplex::strand::Strand;
use line_text::bases::PLACES;
use line_text::lines::Stop;
use line_text::{lines, numbers};

// Where the numbers of a strand are read to.
#[derive(Drop)]
pub struct StrandRoom {
    quals: [u8; PLACES],
    depths: [u16; PLACES],
    errors: [u16; PLACES],
}

impl StrandRoom {
    ghost use Rattle.std.specs.Prelude.{replicate};

    // All is 0 at first; a strand that is read fills the first places.
    pub fn new() -> StrandRoom
        ensures { (result.quals ≡ replicate 1100 0) × (result.depths ≡ replicate 1100 0) × (result.errors ≡ replicate 1100 0) }
    {
        StrandRoom {
            quals: [0; PLACES],
            depths: [0; PLACES],
            errors: [0; PLACES],
        }
    }
}

// The words of a line, exactly as many as there is room for.
#[tactic(auto, unfolding(line_text::specs::Numbers::words_line))]
fn read_words<'a>(line: &[u8], room: &'a mut [u32]) -> Option<&'a [u32]>
    ensures { option_map (λ words. words.now) result ≡ words_line (length room.old) line.now }
{
    let count = room.len();
    let words = numbers::read_numbers(line, b"O", room)?;
    (words.len() == count).then_some(words)
}

// A line of operation words.
pub fn next_words<'a>(
    text: &[u8],
    at: usize,
    room: &'a mut [u32],
) -> Result<(&'a [u32], usize), Stop>
    requires { at ≤ length text.now }
    ensures { Reads (λ words. words.now) text.now result (one_line (words_line (length room.old)) (lines_from text.now at)) }
{
    lines::next_line(text, at, |line| read_words(line, room))
}

// The four lines of a strand.
fn strand_at<'a>(
    text: &'a [u8],
    at: usize,
    room: &'a mut StrandRoom,
) -> Result<(Strand<'a>, usize), Stop>
    requires { at ≤ length text.now }
    ensures { Reads strand_of text.now result (strand_from (lines_from text.now at)) }
{
    let StrandRoom {
        quals,
        depths,
        errors,
    } = room;
    let (bases, at) = column::next_bases(text, at)?;
    let (quals, at) = column::next_numbers(text, at, b"Q", quals)?;
    let (depths, at) = column::next_numbers(text, at, b"D", depths)?;
    let (errors, at) = column::next_numbers(text, at, b"E", errors)?;
    let strand = Strand {
        bases,
        quals,
        depths,
        errors,
    };
    Ok((strand, at))
}

// A strand, where its lines follow.
pub fn next_strand<'a>(
    text: &'a [u8],
    at: usize,
    follows: bool,
    room: &'a mut StrandRoom,
) -> Result<(Option<Strand<'a>>, usize), Stop>
    requires { at ≤ length text.now }
    ensures { Reads (option_map strand_of) text.now result (strand_if follows (lines_from text.now at)) }
{
    if !follows {
        return Ok((None, at));
    }
    let (strand, after) = strand_at(text, at, room)?;
    Ok((Some(strand), after))
}
