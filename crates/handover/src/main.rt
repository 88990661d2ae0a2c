// The program handover: reads families as text from standard input, or from each file that an argument names, and writes for people
// the families that gave no duplex, with their rejected records, and behind them the sheet of the ledger and, where
// samples are named, theirs.
#![tactic(auto)]

mod list;

use crate::list::HandedOver;
use family_windows::files;
use std::io;

fn main(rt: HostRuntime) -> io::Result<()> {
    files::run::<HandedOver, HostRuntime>(&rt)
}
