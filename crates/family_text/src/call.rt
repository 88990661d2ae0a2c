// A family call as it was read.
ghost use Rattle.std.specs.Prelude.{◌≡◌, ◌≤◌, length};
ghost use Rattle.family_text.specs.Announced.{Announced};

use codec_duplex::strand::Strand;
use codec_records::records::Record;
use ledger_lines::settings::Handed;
use record_lines::header::Header;

// A family as it stands in a text and in the room that it was read to: the first 512 of its records, its operation words, and the strands that
// follow them.
#[derive(Clone, Copy)]
pub struct Family<'a> {
    pub header: Header,
    pub records: &'a [Record],
    pub words: &'a [u32],
    pub r1: Option<Strand<'a>>,
    pub r2: Option<Strand<'a>>,
    ghost announced: { Announced header },
    ghost counted: { header.records ≤ 512 → length records.now ≡ header.records },
}

// What is handed after the lines that set something, and the family that follows them, unless the text ends there.
#[derive(Clone, Copy)]
pub struct Call<'a> {
    pub handed: Handed,
    pub family: Option<Family<'a>>,
}
