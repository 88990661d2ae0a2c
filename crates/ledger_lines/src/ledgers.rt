// The lines in front of a family that set what it is handed.
ghost use Rattle.std.specs.Prelude.{◌≤◌, length};
ghost use Rattle.line_text.specs.Reading.{Reads, lines_from};
ghost use Rattle.ledger_lines.specs.Ledgers.{NextSetting, ledgers_from};

use crate::settings;
use crate::settings::{Handed, Setting};
use line_text::lines;
use line_text::lines::Stop;

// What the line that begins at a place sets, and where the line after it begins; none where it sets nothing or is not ended.
fn next_setting(text: &[u8], at: usize) -> Result<Option<(Setting, usize)>, Stop>
    requires { at ≤ length text.now }
    ensures { NextSetting text.now at result }
{
    let Ok((line, after)) = lines::line_at(text, at) else {
        return Ok(None);
    };
    let Some(said) = settings::read_setting(line) else {
        return Ok(None);
    };
    let setting = said.ok_or(Stop::Malformed(at))?;
    Ok(Some((setting, after)))
}

// What is handed after the lines that set something, and where the first other line begins; what is set last counts.
// A line's end says where the next begins: no range or chain has these places.
pub fn read_ledgers(text: &[u8], start: usize, before: Handed) -> Result<(Handed, usize), Stop>
    requires { start ≤ length text.now }
    ensures { Reads (λ handed. handed) text.now result (ledgers_from before (lines_from text.now start)) }
{
    let mut handed = before;
    let mut at = start;
    while let Some((setting, after)) = next_setting(text, at)? {
        handed.set(setting);
        at = after;
    }
    Ok((handed, at))
}
