// How a strand lies among the places of a duplex.
ghost use Rattle.std.specs.Prelude.{cond, ◌≡◌, ◌+◌, ◌-◌, ◌≤◌};

#[derive(Clone, Copy)]
pub struct Layout {
    // How many places the duplex has.
    pub length: usize,
    // The strand is reverse complemented, or as it is.
    pub reversed: bool,
    // The padding is on the left, or on the right.
    pub left: bool,
}

impl Layout {
    // Where a strand of so many places begins.
    pub fn start(self, count: usize) -> usize
        requires { count ≤ self.length }
        ensures value { result ≡ cond self.left (self.length - count) 0 }
        ensures fits { result + count ≤ self.length }
    {
        if self.left { self.length - count } else { 0 }
    }
}
