// Stored lists of a dispatcher's calls, one line for each call: its answer, and the dispatcher that it leaves.
#![tactic(auto)]

use codec_dispatch::dispatch::{Dispatcher, LaneRefusal};
use std::io;
use std::io::Read;

// Room for the lists that are stored.
const TEXT_BYTES: u64 = 4096;

fn show_added(rt: &impl Print, added: Result<(), LaneRefusal>) -> io::Result<()> {
    match added {
        Ok(()) => print!(rt; ": added"),
        Err(why) => print!(rt; ": {why}"),
    }
}

fn show_turn(rt: &impl Print, turn: Result<Option<u32>, LaneRefusal>) -> io::Result<()> {
    match turn {
        Ok(Some(lane)) => print!(rt; ": lane {lane}"),
        Ok(None) => print!(rt; ": idle"),
        Err(why) => print!(rt; ": {why}"),
    }
}

fn show_dispatcher(rt: &impl Print, dispatcher: &Dispatcher) -> io::Result<()> {
    print!(rt; ": last {} waiting", dispatcher.last)?;
    for count in dispatcher.waiting {
        print!(rt; " {count}")?;
    }
    Ok(())
}

// The digits of a line, as one number of 32 bits.
fn number_in(line: &[u8]) -> u32 {
    let digits = line.iter().filter(|byte| byte.is_ascii_digit());
    digits.fold(
        0u32,
        |n, digit| n.wrapping_mul(10).wrapping_add(u32::from(*digit & 15)),
    )
}

// A line says what it asks by its first letter. L and E make a dispatcher that a host may hand in: the lane served last, or each of
// the counts.
fn run_line(rt: &impl Print, line: &[u8], dispatcher: &mut Dispatcher) -> io::Result<()> {
    let n = number_in(line);
    match line.first() {
        Some(b'A') => show_added(rt, dispatcher.add(n))?,
        Some(b'T') => show_turn(rt, dispatcher.turn())?,
        Some(b'F') => *dispatcher = Dispatcher::default(),
        Some(b'L') => dispatcher.last = n,
        Some(b'E') => dispatcher.waiting = [(n % 65536) as u16; 8],
        _ => return Ok(()),
    }
    show_dispatcher(rt, dispatcher)
}

fn main(rt: HostRuntime) -> io::Result<()> {
    let mut text = Vec::new(rt.alloc());
    rt.reader().take(TEXT_BYTES).read_to_end(&mut text)?;
    let mut dispatcher = Dispatcher::default();
    for line in text.split_inclusive(|byte| *byte == b'\n') {
        let line = line.strip_suffix(b"\n").unwrap_or(line);
        rt.write_all(line)?;
        run_line(&rt, line, &mut dispatcher)?;
        println!(rt; "")?;
    }
    Ok(())
}
