// The program check-table: reads our input table and a partner's output table, from the two files that its arguments name, and
// writes the answer of the check. Of several pairs each answer stands behind its files' names.
#![tactic(auto)]

use partner_table::compare::check_tables;
use partner_table::fault::Fault;
use std::io::Read;
use std::rt::{Env, Files};
use std::{env, fs, io};

// The longest well-formed input table has 73,752 bytes, the longest output table 36,884. One byte more decides the answer, however
// the file goes on: where no line before the cut is malformed, either line 2,050 has begun, or the line that is cut is already
// too long to be well formed.
const TABLE_BYTES: usize = 73753;

fn write_answer(rt: &impl Print, answer: Result<(), Fault>) -> io::Result<()> {
    match answer {
        Ok(()) => rt.println("accepted"),
        Err(fault) => println!(rt; "{fault}"),
    }
}

fn read_table<R: Alloc, F: Read + Drop>(rt: &R, file: F) -> io::Result<Vec<u8, R::A>> {
    let mut table = Vec::new(rt.alloc());
    file.take(TABLE_BYTES as u64).read_to_end(&mut table)?;
    Ok(table)
}

fn answer_pair<R: Alloc + Print, F: Read + Drop>(rt: &R, ours: F, theirs: F) -> io::Result<()> {
    let our_table = read_table(rt, ours)?;
    let their_table = read_table(rt, theirs)?;
    write_answer(rt, check_tables(&our_table, &their_table))
}

// Of a file that cannot be opened, a line on standard error says why.
fn open_table<R: Files + Eprint>(rt: &R, name: &str) -> io::Result<Option<R::File>> {
    match fs::open(rt, name) {
        Ok(file) => Ok(Some(file)),
        Err(error) => {
            eprintln!(rt; "{name}: {error}")?;
            Ok(None)
        }
    }
}

// Where several pairs are named, each file's name is written before it is opened (a flag, asked before each of the two).
fn run_pair<R: Files + Alloc + Print + Eprint>(
    rt: &R,
    first: &str,
    second: &str,
    titled: bool,
) -> io::Result<()> {
    if titled {
        print!(rt; "{first} ")?;
    }
    let Some(ours) = open_table(rt, first)? else {
        return Ok(());
    };
    if titled {
        print!(rt; "{second}: ")?;
    }
    let Some(theirs) = open_table(rt, second)? else {
        return Ok(());
    };
    answer_pair(rt, ours, theirs)
}

// Two names a turn, which no adapter of an iterator gives. A name without a second behind it is passed over.
fn run_pairs<R: Files + Env + Alloc + Print + Eprint>(rt: &R) -> io::Result<()> {
    let mut names = env::args(rt)?.skip(1);
    let titled = 2 < names.len();
    while let Some(first) = names.next() {
        let Some(second) = names.next() else {
            return Ok(());
        };
        run_pair(rt, first.as_str(), second.as_str(), titled)?;
    }
    Ok(())
}

fn main(rt: HostRuntime) -> io::Result<()> {
    run_pairs(&rt)
}
