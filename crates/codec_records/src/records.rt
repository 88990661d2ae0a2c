// The records of a family, as a host lends them.

// Names are numbers, equal for equal names; `verdict` is the pair test's; `clipped` is the read's length, and `position` its start
// from 1, after clipping; `start` and `count` are its part of the operation words.
#[repr(C)]
#[derive(Clone, Copy, Default)]
pub struct Record {
    pub flags: u16,
    pub name: u32,
    pub verdict: bool,
    pub rank: i32,
    pub clipped: u32,
    pub position: u32,
    pub start: u32,
    pub count: u32,
}
