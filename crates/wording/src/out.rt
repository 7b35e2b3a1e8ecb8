// What is written to standard output or, beside one that may go to a file, to standard error.
use crate::characters::{Backquoted, Shown};
use std::fmt::Display;
use std::io::Result;

// What cannot be written is lost here, on either: there is nowhere else to say so.
fn lose(written: Result<()>) {
    let _ = written;
}

pub fn bytes(rt: &impl Print, w: &[u8]) {
    lose(rt.write_all(w));
}

// A number, a word, or a sentence with such parts.
pub fn text(rt: &impl Print, d: impl Display + Drop) {
    lose(rt.print(d));
}

pub fn byte(rt: &impl Print, b: u8) {
    bytes(rt, &[b]);
}

pub fn number(rt: &impl Print, n: u64) {
    text(rt, n);
}

// The characters of w, safe for a terminal.
pub fn shown(rt: &impl Print, w: &[u8]) {
    text(rt, Shown(w));
}

// A word between backquotes.
pub fn backquoted(rt: &impl Print, w: &[u8]) {
    text(rt, Backquoted(w));
}

pub fn line_end(rt: &impl Print) {
    byte(rt, b'\n');
}
