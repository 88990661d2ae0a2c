// CIGARs as SAM writes them, as 8M2I4M, or * for none.
ghost use Rattle.std.specs.Prelude.{◌≤◌, ◌<◌, length};

use std::fmt;

// The letters of the codes 0 to 8.
const LETTERS: [u8; 9] = [b'M', b'I', b'D', b'N', b'S', b'H', b'P', b'=', b'X'];

// The code of every other letter, which is no operation.
const NO_CODE: u32 = 15;

fn code_of(letter: u8) -> u32
    ensures { result < 16 }
{
    match LETTERS.iter().position(|own| *own == letter) {
        Some(code) => code as u32,
        None => NO_CODE,
    }
}

fn letter_of(code: u64) -> char {
    match LETTERS.get(code as usize) {
        Some(letter) => char::from(*letter),
        None => '?',
    }
}

// The words of a CIGAR, as many as a record may have. An array and no Vec: a line that is printed has no error of memory.
#[derive(Drop)]
pub struct Cigar {
    words: [u32; 64],
    len: usize,
    ghost few: { len ≤ 64 },
}

impl Cigar {
    // A length has 28 bits: of a longer one the rest is cut off.
    pub fn parse(text: &str) -> Self {
        let mut words = [0; 64];
        let mut len = 0;
        let mut length = 0u32;
        for c in text.bytes() {
            if c.is_ascii_digit() {
                length = length.wrapping_mul(10).wrapping_add(u32::from(c - b'0'));
            } else if c != b'*' && len < 64 {
                words[len] = length.wrapping_mul(16) | code_of(c);
                len += 1;
                length = 0;
            }
        }
        Cigar { words, len }
    }

    pub fn words(&self) -> &[u32]
        ensures { length result.now ≤ 64 }
    {
        &self.words[..self.len]
    }
}

// Operations or entries as SAM writes them.
#[derive(Clone, Copy)]
pub struct Listed<'a, N> {
    pub entries: &'a [N],
}

impl<N: Copy + Into<u64>> fmt::Display for Listed<'_, N> {
    fn fmt<W: fmt::Write>(&self, f: &mut fmt::Formatter<W>) -> fmt::Result {
        if self.entries.is_empty() {
            return f.write_str("*");
        }
        for &entry in self.entries {
            let entry: u64 = entry.into();
            write!(f, "{}{}", entry / 16, letter_of(entry % 16))?;
        }
        Ok(())
    }
}
