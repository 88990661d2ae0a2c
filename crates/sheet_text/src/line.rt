// A line of the sheet.
ghost use Rattle.std.specs.Prelude.{false, ◌≡◌, ◌+◌, ◌≤◌, ◌<◌, length};
ghost use Rattle.codec_stats.specs.Ledger.{too_large};
ghost use Rattle.table_text.specs.Page.{HasRoom, Appends};
ghost use Rattle.sheet_text.specs.SheetText.{numbers_text, sample_text};

use codec_stats::ledger::Ledger;
use codec_stats::rates::{filtered, millionths};
use table_text::page::Page;

fn write_numbers(page: &mut Page, numbers: &[u64])
    requires { HasRoom (length (numbers_text numbers.now)) page.old }
    ensures { Appends (numbers_text numbers.now) page.old page.new }
{
    let Some((&last, others)) = numbers.split_last() else {
        return;
    };
    for &n in others {
        page.write_number(n, b' ');
    }
    page.write_number(last, b'\n');
}

// Refusal 10 leaves at most 2, 9, 13, 14, 13, 13, 13, 13 and 19 digits, and after each number comes a byte: 118 bytes. Without a family
// there is no line.
pub(crate) fn write_sample(page: &mut Page, sample: usize, ledger: Ledger)
    requires sample_in_bounds { sample < 96 }
    requires within_limits { too_large ledger ≡ false }
    requires room { HasRoom 118 page.old }
    ensures appended { Appends (sample_text sample ledger) page.old page.new }
    ensures upper_bound { page.new.end ≤ page.old.end + 118 }
{
    if ledger.families == 0 {
        return;
    }
    let filtered = filtered(ledger);
    let millionths = millionths(ledger);
    let figures = [
        sample as u64,
        ledger.families,
        ledger.records,
        filtered,
        ledger.duplexes,
        ledger.bases,
        ledger.duplex_bases,
        ledger.disagreements,
        millionths,
    ];
    write_numbers(page, &figures);
}
