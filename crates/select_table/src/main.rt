// The program select-table: reads families as text from standard input, or from each file that an argument names, and writes what
// selection alone answers to each; of an input that is not in the text form only the line of its refusal.
#![tactic(auto)]

mod selecting;

use crate::selecting::Selecting;
use family_windows::files;
use std::io;

// Room for many answers.
const OUTPUT_BYTES: usize = 65536;

fn main(rt: HostRuntime) -> io::Result<()> {
    files::run_through::<Selecting, HostRuntime>(&rt, &mut [0; OUTPUT_BYTES])
}
