// The program family-table: reads families as text from standard input, or from each file that an argument names, and writes what
// the family call answers to each, one ledger going through the whole input, and one for each sample that it names.
#![tactic(auto)]

mod answers;

use crate::answers::Answers;
use family_windows::files;
use std::io;

fn main(rt: HostRuntime) -> io::Result<()> {
    files::run::<Answers, HostRuntime>(&rt)
}
