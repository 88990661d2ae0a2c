// A family call as text: its header, its records, its operation words and its strands, with lines in front that set what it is handed.
ghost use Rattle.std.specs.Prelude.{◌≡◌, ◌≤◌, ◌<◌, length, IfOk, MatchOption};
ghost use Rattle.line_text.specs.Reading.{Reads, lines_from, one_line};
ghost use Rattle.record_lines.specs.Header.{header_of};
ghost use Rattle.family_text.specs.Announced.{Announced};
ghost use Rattle.family_text.specs.Family.{family_of, call_of};
ghost use Rattle.family_text.specs.Shown.{family_in, call_in};

use crate::call::{Call, Family};
use crate::room::Room;
use ledger_lines::ledgers;
use ledger_lines::settings::Handed;
use line_text::lines;
use line_text::lines::Stop;
use record_lines::header::Header;
use record_lines::{header, records};
use strand_lines::strands;

#[tactic(auto, using(crate::proofs::Calls::header_reads, crate::proofs::Calls::header_announces))]
fn next_header(text: &[u8], at: usize) -> Result<(Header, usize), Stop>
    requires { at ≤ length text.now }
    ensures reads { Reads (λ header. header) text.now result (one_line header_of (lines_from text.now at)) }
    ensures announced { IfOk result (λ r. Announced r.0) }
{
    lines::next_line(text, at, header::header_line)
}

fn family_at<'a>(text: &'a [u8], at: usize, room: &'a mut Room) -> Result<(Family<'a>, usize), Stop>
    requires { at ≤ length text.now }
    ensures { Reads family_in text.now result (family_of (lines_from text.now at)) }
{
    let Room {
        records,
        words,
        r1,
        r2,
    } = room;
    let (header, at) = next_header(text, at)?;
    let (records, at) = records::next_records(text, at, header.records, records)?;
    let (words, at) = strands::next_words(text, at, &mut words[..header.words])?;
    let (r1, at) = strands::next_strand(text, at, header.r1_follows, r1)?;
    let (r2, at) = strands::next_strand(text, at, header.r2_follows, r2)?;
    let family = Family {
        header,
        records,
        words,
        r1,
        r2,
    };
    Ok((family, at))
}

// The next family of a text whose lines begin at `start`; what was handed before it is handed to it, as the lines in front of it set it.
pub fn next_family<'a>(
    text: &'a [u8],
    start: usize,
    before: Handed,
    room: &'a mut Room,
) -> Result<(Call<'a>, usize), Stop>
    requires { start ≤ length text.now }
    ensures reads { Reads call_in text.now result (call_of before (lines_from text.now start)) }
    ensures onward { IfOk result (λ r. MatchOption r.0.family (r.1 ≡ length text.now) (λ _. start < r.1)) }
{
    let (handed, at) = ledgers::read_ledgers(text, start, before)?;
    if at == text.len() {
        let family = None;
        return Ok((Call { handed, family }, at));
    }
    let (family, after) = family_at(text, at, room)?;
    let family = Some(family);
    Ok((Call { handed, family }, after))
}
