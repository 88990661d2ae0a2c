// A text taken apart at a byte: lines at the line feeds, fields at the spaces.
ghost use Rattle.std.specs.Prelude.{◌≡◌, ◌+◌, ◌≤◌, length, drop};
ghost use Rattle.table_text.specs.Bytes.{index_of};
ghost use Rattle.table_text.specs.Parts.{parts, ended_parts};

// Where the part that begins at `at` ends: at the next such byte, or at the end of the text. A for: of position the check does not see that no
// such byte is passed over.
#[tactic(auto, using(crate::proofs::Firsts::first_here, crate::proofs::Firsts::first_further, crate::proofs::Firsts::first_nowhere))]
pub fn part_end(text: &[u8], at: usize, byte: u8) -> usize
    requires { at ≤ length text.now }
    ensures { (result ≡ at + index_of byte (drop at text.now)) × (result ≤ length text.now) }
{
    for end in at..text.len() {
        if text[end] == byte {
            return end;
        }
    }
    text.len()
}

// How many parts are ended by the byte.
#[tactic(auto, using(crate::proofs::Firsts::parts_counted))]
pub fn ended_parts(text: &[u8], byte: u8) -> usize
    ensures { result ≡ ended_parts (parts byte text.now) }
{
    text.iter().filter(|&&other| other == byte).count()
}
