// The calls of a dispatcher.
ghost use Rattle.std.specs.Prelude.{◌≡◌, ◌≤◌, IsTrue, IfSome, OnOk, OnErr, IfOk, IfErr};
ghost use Rattle.codec_dispatch.specs.Dispatch as defs;

use std::fmt;

// Why a call is refused, by its number: a lane above 7, in the call or as the lane served last, or a lane with no room for one
// family more.
#[derive(Clone, Copy, PartialEq, Eq)]
pub enum LaneRefusal {
    NoSuchLane = 22,
    LaneFull = 23,
}

impl From<LaneRefusal> for u32 {
    ghost from_gives = { λ why n. n ≡ defs.number_of why };

    fn from(why: LaneRefusal) -> u32 {
        why as u32
    }
}

impl fmt::Display for LaneRefusal {
    fn fmt<W: fmt::Write>(&self, f: &mut fmt::Formatter<W>) -> fmt::Result {
        write!(f, "refused {}", u32::from(*self))
    }
}

const LANES: u32 = 8;

// How many families of each lane wait, and the lane served last.
#[repr(C)]
#[derive(Clone, Copy)]
pub struct Dispatcher {
    pub waiting: [u16; 8],
    pub last: u32,
}

impl Default for Dispatcher {
    ghost is_default = { λ d. d ≡ defs.fresh };

    fn default() -> Self {
        Dispatcher {
            waiting: [0; 8],
            last: LANES - 1,
        }
    }
}

impl Dispatcher {
    // A family of the lane waits now too.
    pub fn add(&mut self, lane: u32) -> Result<(), LaneRefusal>
        ensures ok { OnOk result (defs.add self.old lane ≡ Ok self.new) }
        ensures err { IfErr result (λ why. defs.add self.old lane ≡ Err why) }
        ensures unchanged { OnErr result (self.new ≡ self.old) }
    {
        if LANES <= lane || LANES <= self.last {
            return Err(LaneRefusal::NoSuchLane);
        }
        let count = self.waiting[lane as usize];
        self.waiting[lane as usize] = count.checked_add(1).ok_or(LaneRefusal::LaneFull)?;
        Ok(())
    }

    // The lane after the one served last comes first, and that one itself comes last.
    fn next(&self) -> Option<u32>
        requires { self.now.last ≤ 7 }
        ensures value { result ≡ defs.next self.now }
        ensures in_bounds { IfSome result (λ lane. lane ≤ 7) }
        ensures waits { IfSome result (λ lane. IsTrue (defs.waits self.now lane)) }
    {
        (0..LANES)
            .map(|k| (self.last + 1 + k) % LANES)
            .find(|&lane| 0 < self.waiting[lane as usize])
    }

    // Whose family is next, if any waits. The count is lowered here, whatever the family call that follows answers.
    pub fn turn(&mut self) -> Result<Option<u32>, LaneRefusal>
        ensures ok { IfOk result (λ lane. defs.turn self.old ≡ Ok (lane, self.new)) }
        ensures err { IfErr result (λ why. defs.turn self.old ≡ Err why) }
        ensures unchanged { OnErr result (self.new ≡ self.old) }
    {
        if LANES <= self.last {
            return Err(LaneRefusal::NoSuchLane);
        }
        let next = self.next();
        if let Some(lane) = next {
            self.waiting[lane as usize] -= 1;
            self.last = lane;
        }
        Ok(next)
    }
}
