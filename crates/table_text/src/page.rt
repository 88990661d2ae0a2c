// A text that is written into a lent buffer, from its front on.
ghost use Rattle.std.specs.Prelude.{[], ◌∷◌, ◌≡◌, ◌-◌, ◌≤◌, length, take};
ghost use Rattle.table_text.specs.Decimal.{decimal};
ghost use Rattle.table_text.specs.OutputTable.{number_text, position_text};

use crate::decimal::write_decimal;
use codec_duplex::position::Position;

// The text is the bytes before `end`; those from there on are as they were lent.
#[derive(Drop)]
pub struct Page<'a> {
    pub bytes: &'a mut [u8],
    pub end: usize,
    ghost within: { end ≤ length bytes.now },
}

impl<'a> Page<'a> {
    ghost use Rattle.table_text.specs.Page.{Blank, HasRoom, Appends};

    pub fn new(bytes: &'a mut [u8]) -> Page<'a>
        ensures { Blank bytes.entry result }
    {
        Page { bytes, end: 0 }
    }

    pub fn text(&self) -> &[u8]
        ensures { result.now ≡ take self.now.end self.now.bytes.now }
    {
        &self.bytes[..self.end]
    }

    // How many bytes are free.
    pub fn room(&self) -> usize
        ensures { result ≡ length self.now.bytes.now - self.now.end }
    {
        self.bytes.len() - self.end
    }

    pub fn push(&mut self, byte: u8)
        requires { HasRoom 1 self.old }
        ensures { Appends (byte ∷ []) self.old self.new }
    {
        self.bytes[self.end] = byte;
        self.end += 1;
    }

    pub fn write(&mut self, text: &[u8])
        requires { HasRoom (length text.now) self.old }
        ensures { Appends text.now self.old self.new }
    {
        let after = self.end + text.len();
        self.bytes[self.end..after].copy_from_slice(text);
        self.end = after;
    }

    pub fn write_decimal(&mut self, n: u64)
        requires { HasRoom (length (decimal n)) self.old }
        ensures { Appends (decimal n) self.old self.new }
    {
        self.end = write_decimal(n, self.bytes, self.end);
    }

    // A number and the byte after it.
    pub fn write_number(&mut self, n: u64, after: u8)
        requires { HasRoom (length (number_text n after)) self.old }
        ensures { Appends (number_text n after) self.old self.new }
    {
        self.write_decimal(n);
        self.push(after);
    }
}
