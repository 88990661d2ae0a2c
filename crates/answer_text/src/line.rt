// A line of text: its words, its fields and a line feed.
ghost use Rattle.std.specs.Prelude.{ℕ, ◌∷◌, ◌≡◌, ◌+◌, ◌*◌, ◌≤◌, length};
ghost use Rattle.table_text.specs.Decimal.{decimal};
ghost use Rattle.table_text.specs.Page.{HasRoom, Appends};
ghost use Rattle.table_text.specs.Text.{space};
ghost use Rattle.answer_text.specs.Line.{fields_by, line_by};

use table_text::page::Page;

// A number that a field holds, and the most bytes of the field: a space and the digits.
// Into<u64> does not say how many digits a number of the type has.
pub trait Field: Copy {
    ghost number: { Self → ℕ };

    ghost widest: { ℕ };

    fn number(self) -> u64
        ensures value { result ≡ number self }
        ensures narrow { 1 + length (decimal result) ≤ widest };
}

#[tactic(auto, using(crate::proofs::Lines::byte_digits))]
impl Field for u8 {
    ghost number = { λ n. n };

    ghost widest = { 4 };

    fn number(self) -> u64 {
        u64::from(self)
    }
}

#[tactic(auto, using(crate::proofs::Lines::short_digits))]
impl Field for u16 {
    ghost number = { λ n. n };

    ghost widest = { 6 };

    fn number(self) -> u64 {
        u64::from(self)
    }
}

#[tactic(auto, using(crate::proofs::Lines::long_digits))]
impl Field for u64 {
    ghost number = { λ n. n };

    ghost widest = { 21 };

    fn number(self) -> u64 {
        self
    }
}

// A number after a space.
pub fn write_field(page: &mut Page, n: u64)
    requires { HasRoom (1 + length (decimal n)) page.old }
    ensures { Appends (space ∷ decimal n) page.old page.new }
{
    page.push(b' ');
    page.write_decimal(n);
}

pub fn write_fields<N: Field>(page: &mut Page, numbers: &[N])
    requires { HasRoom (N.widest * length numbers.now) page.old }
    ensures appended { Appends (fields_by N.number numbers.now) page.old page.new }
    ensures upper_bound { page.new.end ≤ page.old.end + N.widest * length numbers.now }
{
    for n in numbers {
        write_field(page, n.number());
    }
}

pub fn write_line<N: Field>(page: &mut Page, words: &[u8], numbers: &[N])
    requires { HasRoom (length words.now + N.widest * length numbers.now + 1) page.old }
    ensures appended { Appends (line_by N.number words.now numbers.now) page.old page.new }
    ensures upper_bound { page.new.end ≤ page.old.end + length words.now + N.widest * length numbers.now + 1 }
{
    page.write(words);
    write_fields(page, numbers);
    page.push(b'\n');
}
