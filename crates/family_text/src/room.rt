// Where a family is read to.

use codec_records::records::Record;
use record_lines::records::RECORDS;
use strand_lines::strands::StrandRoom;

// A family announces at most so many operation words.
pub const WORDS: usize = 9000;

// Its records, its operation words and the numbers of both strands. Bases stay where they are in the text.
#[derive(Drop)]
pub struct Room {
    pub(crate) records: [Record; RECORDS],
    pub(crate) words: [u32; WORDS],
    pub(crate) r1: StrandRoom,
    pub(crate) r2: StrandRoom,
}

impl Room {
    ghost use Rattle.std.specs.Prelude.{◌≡◌, replicate};

    pub fn new() -> Room
        ensures { result.words ≡ replicate 9000 0 }
    {
        Room {
            records: [Record::default(); RECORDS],
            words: [0; WORDS],
            r1: StrandRoom::new(),
            r2: StrandRoom::new(),
        }
    }
}
