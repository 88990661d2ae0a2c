// Standard input, or each file that an argument names; of an input that is not in the text form only the line of its refusal.
ghost use Rattle.std.specs.Prelude.{◌^◌, ◌≤◌, ◌<◌, length};

use crate::output::Unread;
use crate::passes::{OUTPUT_BYTES, read_windows};
use crate::service::{Checking, Service};
use crate::{output, windows};
use std::io::{Read, Seek};
use std::rt::{Env, Files};
use std::{env, fs, io};

// Nothing is answered before every line is known to be well formed, so the input is read twice.
fn read_twice<S: Service, R: Print + Eprint, F: Read + Seek>(
    rt: &R,
    file: &mut F,
    size: usize,
    answers: &mut [u8],
) -> Result<(), Unread>
    requires size_is_small { size < 2 ^ 63 }
    requires roomy { S.ROOM ≤ length answers.old }
{
    read_windows::<Checking, R, F>(rt, file, size, answers)?;
    read_windows::<S, R, F>(rt, file, size, answers)
}

fn answer_file<S: Service, R: Print + Eprint, F: Read + Seek>(
    rt: &R,
    file: &mut F,
    answers: &mut [u8],
)
    requires { S.ROOM ≤ length answers.old }
{
    if let Some(size) = windows::file_size(rt, file) {
        output::report(rt, read_twice::<S, R, F>(rt, file, size, answers));
    }
}

fn run_input<S: Service, R: Files + Print + Eprint>(rt: &R, answers: &mut [u8])
    requires { S.ROOM ≤ length answers.old }
{
    if let Some(mut file) = windows::open_input(rt) {
        answer_file::<S, R, R::File>(rt, &mut file, answers);
    }
}

fn run_file<S: Service, R: Files + Print + Eprint>(rt: &R, name: &str, answers: &mut [u8])
    requires { S.ROOM ≤ length answers.old }
{
    match fs::open(rt, name) {
        Ok(mut file) => {
            output::title(rt, name);
            answer_file::<S, R, R::File>(rt, &mut file, answers);
        }
        Err(error) => output::say_failed(rt, name, error),
    }
}

// What the programs do: they differ in their service, and in how many bytes of answers they write out at once.
pub fn run_through<S: Service, R: Files + Env + Alloc + Print + Eprint>(
    rt: &R,
    answers: &mut [u8],
) -> io::Result<()>
    requires { S.ROOM ≤ length answers.old }
{
    let names = env::args(rt)?;
    if names.len() < 2 {
        run_input::<S, R>(rt, answers);
        return Ok(());
    }
    for name in names.skip(1) {
        run_file::<S, R>(rt, name.as_str(), answers);
    }
    Ok(())
}

// An output in which each service has room.
fn run_wide<S: Service, R: Files + Env + Alloc + Print + Eprint>(
    rt: &R,
    answers: &mut [u8],
) -> io::Result<()>
    requires { 262144 ≤ length answers.old }
{
    run_through::<S, R>(rt, answers)
}

// The same with an output of its own.
pub fn run<S: Service, R: Files + Env + Alloc + Print + Eprint>(rt: &R) -> io::Result<()> {
    run_wide::<S, R>(rt, &mut [0; OUTPUT_BYTES])
}
