// The program duplex-table: reads an input table from standard input and writes its output table, or only the line
// of its refusal.
#![tactic(auto)]

use std::io;
use std::io::Read;
use table_text::duplex;

// The longest well-formed table has 24 bytes of names and 2,048 lines of 36, `A 255 65535 65535 C 255 65535 65535` and a
// line feed: 73,752 bytes. One byte more decides the answer, however the input goes on: where no line before the cut is
// malformed, either line 2,050 has begun, or the line that is cut is already too long to be well formed.
const INPUT_BYTES: usize = 73753;

fn main(rt: HostRuntime) -> io::Result<()> {
    let mut input = Vec::new(rt.alloc());
    rt.reader()
        .take(INPUT_BYTES as u64)
        .read_to_end(&mut input)?;
    let mut output = [0u8; duplex::OUTPUT_BYTES];
    let size = duplex::duplex_table(&input, &mut output);
    rt.write_all(&output[..size])
}
