// The program sample-sheet: reads families as text from standard input, or from each file that an argument names, calls each for the sample
// that the text names, and writes the samples' sheet alone.
#![tactic(auto)]

mod sheet;

use crate::sheet::SheetAlone;
use family_windows::files;
use std::io;

fn main(rt: HostRuntime) -> io::Result<()> {
    files::run::<SheetAlone, HostRuntime>(&rt)
}
