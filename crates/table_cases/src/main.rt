// Runs duplex-table's function on stored tables: on each file that an argument names, and on tables of many positions.
#![tactic(auto)]

ghost use Rattle.std.specs.Prelude.{◌≡◌};

use std::io::Read;
use std::rt::{Env, Files};
use std::{env, fs, io};
use table_text::duplex;
use table_text::page::Page;

// Long enough for 2,049 of the longest lines.
const TABLE_BYTES: usize = 73800;

fn title(rt: &impl Print, name: &str) -> io::Result<()> {
    println!(rt; "== {name}")
}

fn run_file<R: Files + Alloc + Print + Eprint>(rt: &R, name: &str) -> io::Result<()> {
    let file = match fs::open(rt, name) {
        Ok(file) => file,
        Err(error) => return eprintln!(rt; "{name}: {error}"),
    };
    let mut input = Vec::new(rt.alloc());
    file.take(TABLE_BYTES as u64).read_to_end(&mut input)?;
    let mut output = [0u8; duplex::OUTPUT_BYTES];
    let size = duplex::duplex_table(&input, &mut output);
    title(rt, name)?;
    rt.write_all(&output[..size])
}

fn run_files<R: Files + Env + Alloc + Print + Eprint>(rt: &R) -> io::Result<()> {
    for name in env::args(rt)?.skip(1) {
        run_file(rt, name.as_str())?;
    }
    Ok(())
}

// The text behind what the page holds, where there is room for it.
fn add(page: &mut Page, text: &[u8])
    ensures { page.new.bytes.ghost_name ≡ page.old.bytes.ghost_name }
{
    if text.len() <= page.room() {
        page.write(text);
    }
}

// Rows of one kind behind the names, and what stands after them.
#[derive(Clone, Copy)]
struct Case<'a> {
    name: &'a str,
    row: &'a [u8],
    times: usize,
    rest: &'a [u8],
}

// A long answer is given by its length.
fn run_case(rt: &impl Print, case: Case) -> io::Result<()> {
    let mut buffer = [0u8; TABLE_BYTES];
    let mut page = Page::new(&mut buffer);
    add(&mut page, b"BA QA DA EA BB QB DB EB\n");
    for _ in 0..case.times {
        add(&mut page, case.row);
    }
    add(&mut page, case.rest);
    let mut output = [0u8; duplex::OUTPUT_BYTES];
    let size = duplex::duplex_table(page.text(), &mut output);
    title(rt, case.name)?;
    if size < 64 {
        return rt.write_all(&output[..size]);
    }
    println!(rt; "{size} bytes")
}

fn main(rt: HostRuntime) -> io::Result<()> {
    run_files(&rt)?;
    let longest = b"A 255 65535 65535 C 254 65535 65535\n";
    let short = b"n 0 0 0 n 0 0 0\n";
    let cases = [
        Case {
            name: "2048 longest positions",
            row: longest,
            times: 2048,
            rest: b"",
        },
        Case {
            name: "2049 longest positions",
            row: longest,
            times: 2049,
            rest: b"",
        },
        Case {
            name: "2048 positions",
            row: short,
            times: 2048,
            rest: b"",
        },
        Case {
            name: "2048 positions, the last unended",
            row: short,
            times: 2047,
            rest: b"n 0 0 0 n 0 0 0",
        },
        Case {
            name: "2049 positions, the last malformed",
            row: short,
            times: 2048,
            rest: b"n 0 0 0 n 0 0\n",
        },
        Case {
            name: "2049 positions, the last unended",
            row: short,
            times: 2048,
            rest: b"n",
        },
        Case {
            name: "2048 positions and an empty line",
            row: short,
            times: 2048,
            rest: b"\n",
        },
        Case {
            name: "a malformed position before the 2049th",
            row: short,
            times: 2047,
            rest: b"n 0 0 0 n 0 0\nn 0 0 0 n 0 0 0\n",
        },
    ];
    for case in cases {
        run_case(&rt, case)?;
    }
    Ok(())
}
