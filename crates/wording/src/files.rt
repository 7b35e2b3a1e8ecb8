// Arguments and files. A file is read into a buffer that is larger than what the reader takes; of a longer file the buffer has the first
// bytes, which are too many for the reader as well, so that it is refused and never cut.
ghost use Rattle.std.specs.Prelude.{◌≤◌, length};

use crate::characters::Shown;
use crate::out;
use std::env::FillError;
use std::io::Read;
use std::rt::{Env, Files};
use std::{fmt, fs, str};

// The most bytes of a file of topics: as many as the reader takes of a rule, and of a sheet.
const MOST_TOPICS: usize = 16384;

// Why a file was not read.
#[derive(Clone, Copy, PartialEq, Eq)]
enum Fault {
    NoName,
    NotOpened,
    NotRead,
    TooManyTopics,
}

impl fmt::Display for Fault {
    fn fmt<W: fmt::Write>(&self, f: &mut fmt::Formatter<W>) -> fmt::Result {
        f.write_str(match self {
            Fault::NoName => "a file name is empty or has more than 4,095 bytes",
            Fault::NotOpened => "this file cannot be opened: it is missing, or may not be read",
            Fault::NotRead => "this file cannot be read to its end: is it a folder?",
            Fault::TooManyTopics => {
                "this file of topics has more than 16,384 bytes: write each topic once"
            }
        })
    }
}

// The argument with an index, from the program's own name on, which is put into a buffer; no bytes where it is missing or does not fit.
pub fn argument<'a>(rt: &impl Env, i: usize, buf: &'a mut [u8]) -> &'a [u8] {
    match rt.arg(i, buf) {
        Ok(n) => &buf[..n],
        Err(_) => &buf[..0],
    }
}

// Is there an argument with an index, be it empty?
fn is_argument(rt: &impl Env, i: usize) -> bool {
    let mut one = [0u8; 1];
    match rt.arg(i, &mut one) {
        Ok(_) | Err(FillError::TooLong) => true,
        Err(FillError::NotPresent) => false,
    }
}

// How many arguments there are, the program's own name among them.
pub fn argument_count(rt: &impl Env) -> usize {
    (0..usize::MAX)
        .find(|i| !is_argument(rt, *i))
        .unwrap_or(usize::MAX)
}

// Is a file at its end? A read that fails, as that of a folder, says no.
fn is_at_end(file: &mut impl Read) -> bool {
    let mut one = [0u8; 1];
    matches!(file.read(&mut one), Ok(0))
}

// Reads some bytes; how many, 0 at the end of the file and where a read fails.
fn read_some(file: &mut impl Read, buf: &mut [u8]) -> usize
    ensures { result ≤ length buf.new }
{
    match file.read(buf) {
        Ok(n) => n,
        Err(_) => 0,
    }
}

// Reads until the buffer is full, the file ends or a read fails; how many bytes. Each turn that goes on has read at least one.
fn read_full(file: &mut impl Read, buf: &mut [u8]) -> usize {
    let len = buf.len();
    let mut size = 0;
    for _ in 0..len {
        if len <= size {
            return size;
        }
        let n = read_some(file, &mut buf[size..]);
        if n == 0 {
            return size;
        }
        size += n;
    }
    size
}

// Reads an open file; how many bytes.
fn fill(file: &mut impl Read, buf: &mut [u8]) -> Result<usize, Fault> {
    let size = read_full(file, buf);
    if size < buf.len() && !is_at_end(file) {
        return Err(Fault::NotRead);
    }
    Ok(size)
}

// Reads the file with a name of 1 to 4,095 bytes, which is closed then. One with a name that is not UTF-8 cannot be opened.
fn read(rt: &impl Files, name: &[u8], buf: &mut [u8]) -> Result<usize, Fault> {
    if name.is_empty() {
        return Err(Fault::NoName);
    }
    let Ok(name) = str::from_utf8(name) else {
        return Err(Fault::NotOpened);
    };
    match fs::open(rt, name) {
        Ok(mut file) => fill(&mut file, buf),
        Err(_) => Err(Fault::NotOpened),
    }
}

// Reads a file of topics, for which the reader has no bound: one that may have been cut is not taken.
fn read_topics(rt: &impl Files, name: &[u8], buf: &mut [u8]) -> Result<usize, Fault> {
    let size = read(rt, name, buf)?;
    if MOST_TOPICS < size {
        return Err(Fault::TooManyTopics);
    }
    Ok(size)
}

// The reason why a file was not read, and the last line of the output.
fn complain(rt: &impl Print, name: &[u8], fault: Fault) {
    if fault == Fault::NoName {
        out::text(rt, format_args!("{fault}\nrefused: no file was read\n"));
        return;
    }
    let name = Shown(name);
    out::text(rt, format_args!("{name}: {fault}\n"));
    out::text(rt, format_args!("refused: the file {name} was not read\n"));
}

// What was read of a file, if it went well; else the reason is said.
fn said<'a>(
    rt: &impl Print,
    name: &[u8],
    read: Result<usize, Fault>,
    buf: &'a [u8],
) -> Option<&'a [u8]> {
    match read {
        Ok(size) => Some(text::part::part(buf, 0, size)),
        Err(fault) => {
            complain(rt, name, fault);
            None
        }
    }
}

// The bytes of the file with a name, which are read into a buffer; none where it was not read, which is said then.
pub fn load<'a>(rt: &(impl Files + Print), name: &[u8], buf: &'a mut [u8]) -> Option<&'a [u8]> {
    let read = read(rt, name, buf);
    said(rt, name, read, buf)
}

// The same of a file of topics.
pub fn load_topics<'a>(
    rt: &(impl Files + Print),
    name: &[u8],
    buf: &'a mut [u8],
) -> Option<&'a [u8]> {
    let read = read_topics(rt, name, buf);
    said(rt, name, read, buf)
}
