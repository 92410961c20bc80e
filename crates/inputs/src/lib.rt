// Files and words that a program is given as arguments. No contract can say what is read: these state only how much of a buffer counts.
#![tactic(auto)]

ghost use Rattle.std.specs.Prelude.{IfOk, IfSome};
ghost use Rattle.inputs.specs.Counts.{IsPrefixLen};

use std::env::FillError;
use std::fmt::Formatter;
use std::io::{Cursor, ErrorKind, Read, Write};
use std::rt::{Env, Files};
use std::{fmt, io};

// The system's numbers for an argument that is not there, and for one that is longer than a file's name may be.
const NO_ARGUMENT: i32 = 22;

const NAME_TOO_LONG: i32 = 36;

// Room for an argument: a file's name is shorter.
const NAME_ROOM: usize = 4096;

// How many arguments the program was started with, its own name among them.
pub fn argument_count(rt: &impl Env) -> usize {
    (0..usize::MAX)
        .find(|i| !has_argument(rt, *i))
        .unwrap_or(usize::MAX)
}

// A buffer of no bytes holds an argument that has none, and is too short for any other.
fn has_argument(rt: &impl Env, i: usize) -> bool {
    match rt.arg(i, &mut []) {
        Ok(_) | Err(FillError::TooLong) => true,
        Err(FillError::NotPresent) => false,
    }
}

// Whether argument i is a word.
pub fn is_argument(rt: &impl Env, i: usize, word: &[u8]) -> bool {
    let mut path = [0u8; NAME_ROOM];
    match rt.arg(i, &mut path) {
        Ok(n) => &path[..n] == word,
        Err(_) => word.is_empty(),
    }
}

// The start of the file that argument i names, as much as the buffer holds: how many bytes, or none where it was not read.
pub fn load_argument(rt: &(impl Files + Env + Eprint), i: usize, buffer: &mut [u8]) -> Option<usize>
    ensures { IfSome result (λ n. IsPrefixLen n buffer.new) }
{
    let mut path = [0u8; NAME_ROOM];
    let number = match rt.arg(i, &mut path) {
        Ok(n) => return load_file(rt, &path[..n], buffer),
        Err(FillError::NotPresent) => NO_ARGUMENT,
        Err(FillError::TooLong) => NAME_TOO_LONG,
    };
    fail(rt, &path, io::Error::from_raw_os_error(number));
    None
}

// The same of a file by its name.
pub fn load_file(rt: &(impl Files + Eprint), path: &[u8], buffer: &mut [u8]) -> Option<usize>
    ensures { IfSome result (λ n. IsPrefixLen n buffer.new) }
{
    match read_file(rt, path, buffer) {
        Ok(n) => Some(n),
        Err(error) => {
            fail(rt, path, error);
            None
        }
    }
}

// The start of a file, as much as the buffer holds: how many bytes.
fn read_file(rt: &impl Files, path: &[u8], buffer: &mut [u8]) -> io::Result<usize>
    ensures { IfOk result (λ n. IsPrefixLen n buffer.new) }
{
    let Ok(name) = std::str::from_utf8(path) else {
        return Err(io::Error::new(ErrorKind::InvalidFilename, "the name is not UTF-8"));
    };
    let mut file = std::fs::open(rt, name)?;
    read_full(&mut file, buffer)
}

// Reads until the buffer is full or the file ends: `read_exact` refuses a file that is shorter, and `read_to_end` needs a heap.
fn read_full(file: &mut impl Read, buffer: &mut [u8]) -> io::Result<usize>
    ensures { IfOk result (λ n. IsPrefixLen n buffer.new) }
{
    let mut done = 0;
    while done < buffer.len() {
        let n = file.read(&mut buffer[done..])?;
        if n == 0 {
            break;
        }
        done += n;
    }
    Ok(done)
}

// Writes a line to standard error: what failed, a colon and the system's words for why.
pub fn fail(rt: &impl Eprint, what: &[u8], error: io::Error) {
    let name = text_of(what);
    let words = Words { error };
    let _ = eprintln!(rt; "{name}: {words}");
}

// The bytes, as far as they are text.
fn text_of(bytes: &[u8]) -> &str {
    match std::str::from_utf8(bytes) {
        Ok(text) => text,
        Err(e) => std::str::from_utf8(&bytes[..e.valid_up_to()]).unwrap_or(""),
    }
}

// An error in the system's words, without the number that is printed behind them.
#[derive(Drop)]
struct Words {
    error: io::Error,
}

impl fmt::Display for Words {
    fn fmt<W: fmt::Write>(&self, f: &mut Formatter<W>) -> fmt::Result {
        let mut text = Cursor::new([0u8; 256]);
        let error = self.error;
        let _ = write!(text, "{error}");
        let text = text.into_inner();
        let text = text_of(&text).trim_end_matches('\0');
        f.write_str(
            text.split_once(" (os error ")
                .map_or(text, |(words, _)| words),
        )
    }
}
