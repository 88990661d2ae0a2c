// The ledger of a family's sample as text.
ghost use Rattle.std.specs.Prelude.{◌+◌, ◌≤◌};
ghost use Rattle.table_text.specs.Page.{HasRoom, Appends};
ghost use Rattle.answer_text.specs.SampleText.{sample_text};

use crate::line::{write_field, write_fields};
use codec_stats::ledger::COUNTS;
use table_text::page::Page;

// Room for the line: its tag, a number of two digits, twenty of 64 bits, each after a space, and a line feed.
pub const SAMPLE_BYTES: usize = 426;

// Writes the ledger of the sample that is named, if it has one.
#[tactic(auto, unfolding(crate::specs::SampleText::sample_text))]
pub fn write_sample(page: &mut Page, named: Option<u32>, samples: &[u64; 1920])
    requires { HasRoom 426 page.old }
    ensures appended { Appends (sample_text named samples.now) page.old page.new }
    ensures upper_bound { page.new.end ≤ page.old.end + 426 }
{
    let Some(sample) = named else {
        return;
    };
    if 95 < sample {
        return;
    }
    let first = COUNTS * sample as usize;
    page.write(b"TS");
    write_field(page, u64::from(sample));
    write_fields(page, &samples[first..first + COUNTS]);
    page.push(b'\n');
}
