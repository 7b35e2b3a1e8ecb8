// Bytes that a separator cuts into pieces: a list of words at its spaces, a text at its line ends.

pub fn is_line_end(b: &u8) -> bool {
    *b == b'\n'
}

fn is_space(b: &u8) -> bool {
    *b == b' '
}

// How many bytes are `b`.
pub fn count(s: &[u8], b: u8) -> usize {
    s.iter().filter(|x| **x == b).count()
}

// Where the piece behind the one at an index begins.
fn next(s: &[u8], at: usize, separator: u8) -> usize {
    let end = text::find::find(s, at, separator);
    if end < s.len() { end + 1 } else { s.len() }
}

// Where piece k begins, from 0 on; the length where there is none.
pub fn start(s: &[u8], separator: u8, k: usize) -> usize {
    let mut at = 0;
    for _ in 0..k {
        at = next(s, at, separator);
    }
    at
}

// Word k of a list of words, from 0 on; no bytes where there is none.
pub fn word(list: &[u8], k: usize) -> &[u8] {
    list.split(is_space).nth(k).unwrap_or(b"")
}

// How many line ends stand before a line, which counts from 1.
fn line_ends(line: u32) -> usize {
    (line as usize).saturating_sub(1)
}

// Where a line begins, which counts from 1.
pub fn line_start(s: &[u8], line: u32) -> usize {
    start(s, b'\n', line_ends(line))
}

// The line with a number, which counts from 1; no bytes where there is none.
pub fn line(s: &[u8], line: u32) -> &[u8] {
    s.split(is_line_end).nth(line_ends(line)).unwrap_or(b"")
}
