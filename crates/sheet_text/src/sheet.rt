// The sheet: its names, and a line for each sample with a family.
ghost use Rattle.std.specs.Prelude.{false, ◌≡◌, ◌≤◌, length};
ghost use Rattle.lists.specs.Written.{written};
ghost use Rattle.table_text.specs.Page.{HasRoom, Appends};
ghost use Rattle.sheet_text.specs.Sheet.{some_too_large, sheet_answer, sheet_buffer};
ghost use Rattle.sheet_text.specs.SheetText.{samples_text, sheet_text};

use crate::line::write_sample;
use crate::refusal::{SheetRefusal, refuse_sheet};
use sample_ledgers::samples::read_sample;
use table_text::page::Page;

// 96 lines of at most 118 bytes.
fn write_samples(page: &mut Page, samples: &[u64; 1920])
    requires within_limits { some_too_large samples.now ≡ false }
    requires room { HasRoom 11328 page.old }
    ensures { Appends (samples_text samples.now) page.old page.new }
{
    for sample in 0..96 {
        write_sample(page, sample, read_sample(samples, sample));
    }
}

// 64 bytes of names, and the lines.
fn write_text(samples: &[u64; 1920], output: &mut [u8]) -> usize
    requires within_limits { some_too_large samples.now ≡ false }
    requires room { 11392 ≤ length output.old }
    ensures value { result ≡ length (sheet_text samples.now) }
    ensures output_after { output.new ≡ written (sheet_text samples.now) output.old }
{
    let mut page = Page::new(output);
    page.write(b"SAMPLE FAMILIES RECORDS FILTERED CALLED BASES DUPLEX DIFFER PPM\n");
    write_samples(&mut page, samples);
    page.end
}

// Writes the sheet of the samples to the front of the buffer, and answers its length; after a refusal the buffer is as it was.
pub fn write_sheet(samples: &[u64; 1920], output: &mut [u8]) -> Result<usize, SheetRefusal>
    ensures value { result ≡ sheet_answer samples.now output.old }
    ensures output_after { output.new ≡ sheet_buffer samples.now output.old }
{
    refuse_sheet(samples, output.len())?;
    Ok(write_text(samples, output))
}
