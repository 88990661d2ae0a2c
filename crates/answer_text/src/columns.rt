// Columns as lines of text.
ghost use Rattle.std.specs.Prelude.{◌∷◌, ◌≡◌, ◌+◌, ◌*◌, ◌≤◌, length};
ghost use Rattle.table_text.specs.Page.{HasRoom, Appends};
ghost use Rattle.table_text.specs.Text.{space};
ghost use Rattle.answer_text.specs.FamilyText.{strand_text, Holding};
ghost use Rattle.answer_text.specs.Line.{line_with};
ghost use Rattle.codec_duplex.specs.Lent.{strand_of};

use crate::line::write_line;
use codec_duplex::strand::Strand;
use table_text::page::Page;

fn write_bases(page: &mut Page, words: &[u8], bases: &[u8])
    requires { HasRoom (length words.now + length bases.now + 2) page.old }
    ensures appended { Appends (line_with words.now (space ∷ bases.now)) page.old page.new }
    ensures end { page.new.end ≡ page.old.end + length words.now + length bases.now + 2 }
{
    page.write(words);
    page.push(b' ');
    page.write(bases);
    page.push(b'\n');
}

// Writes the first n places of a side's four columns, 17 bytes a place.
pub(crate) fn write_strand(page: &mut Page, side: u8, n: usize, strand: &Strand<'_>)
    requires holding { Holding n (strand_of strand.now) }
    requires room { HasRoom (17 * n + 13) page.old }
    ensures appended { Appends (strand_text side n (strand_of strand.now)) page.old page.new }
    ensures upper_bound { page.new.end ≤ page.old.end + 17 * n + 13 }
{
    write_bases(page, &[side, b'B'], &strand.bases[..n]);
    write_line(page, &[side, b'Q'], &strand.quals[..n]);
    write_line(page, &[side, b'D'], &strand.depths[..n]);
    write_line(page, &[side, b'E'], &strand.errors[..n]);
}
