// One side of a family: the numbers of its records, in given order.
ghost use Rattle.std.specs.Prelude.{◌≡◌, ◌+◌, ◌≤◌, ◌<◌, List, ℕ, [], ◌∷◌, ◌++◌, length, take};
ghost use Rattle.lists.specs.Written.{written};
ghost use Rattle.codec_records.specs.Side.{kept};

use std::marker::Model;

// Moves the records that stay to the front, in given order, and answers how many they are. A column may be longer than the side.
pub fn keep_staying(side: &mut [usize], stays: &[bool]) -> usize
    requires { length stays.now ≤ length side.old }
    ensures value { result ≡ length (kept side.old stays.now) }
    ensures side_after { side.new ≡ written (kept side.old stays.now) side.old }
{
    let mut count = 0;
    for (k, &stay) in stays.iter().enumerate() {
        if stay {
            side[count] = side[k];
            count += 1;
        }
    }
    count
}

// A name has one record on each side, so that half of a family's 512 records have room.
// That they are below a family's number stays a clause: a side does not know its family.
#[derive(Drop)]
pub struct Side {
    records: [usize; 256],
    len: usize,
}

// Clauses see the list of the records.
impl Model for Side {
    ghost Value = { List ℕ };

    ghost view = { λ side. take side.len side.records };

    ghost invariant = { λ side. side.len ≤ 256 };
}

impl Side {
    pub fn new() -> Self
        ensures { result ≡ [] }
    {
        Side {
            records: [0; 256],
            len: 0,
        }
    }

    pub fn len(&self) -> usize
        ensures { result ≡ length self.now }
    {
        self.len
    }

    pub fn as_slice(&self) -> &[usize]
        ensures records { result.now ≡ self.now }
        ensures few { length self.now ≤ 256 }
    {
        &self.records[..self.len]
    }

    pub fn clear(&mut self)
        ensures { self.new ≡ [] }
    {
        self.len = 0;
    }

    pub fn push(&mut self, record: usize)
        requires { length self.old < 256 }
        ensures { self.new ≡ self.old ++ «record» ∷ [] }
    {
        self.records[self.len] = record;
        self.len += 1;
    }

    // Those whose flag is set stay, in their order.
    pub fn retain(&mut self, stays: &[bool])
        requires { length stays.now ≡ length self.old }
        ensures { self.new ≡ kept self.old stays.now }
    {
        self.len = keep_staying(&mut self.records, stays);
    }
}

#[derive(Drop)]
pub struct Sides {
    pub r1: Side,
    pub r2: Side,
}

impl Sides {
    pub fn new() -> Self
        ensures { (result.r1 ≡ []) × (result.r2 ≡ []) }
    {
        Sides {
            r1: Side::new(),
            r2: Side::new(),
        }
    }

    pub fn clear(&mut self)
        ensures { (self.new.r1 ≡ []) × (self.new.r2 ≡ []) }
    {
        self.r1.clear();
        self.r2.clear();
    }
}
