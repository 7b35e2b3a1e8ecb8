// Sentences over a row of numbers, with parts to fill in. A part is `%`, a letter and a digit. The digit is the index of a number; the letter is `n` for the
// number itself, and `P` for the end of a word for so many.
use crate::{layout, out, split};

fn is_percent(b: &u8) -> bool {
    *b == b'%'
}

// The value of a digit.
fn digit(b: u8) -> usize {
    b.saturating_sub(b'0') as usize
}

// A part, and what stands behind it up to the next.
fn piece(rt: &impl Print, row: &[u32], w: &[u8]) {
    let [letter, k, rest @ ..] = w else {
        return;
    };
    match (*letter, layout::word(row, digit(*k))) {
        (b'n', n) => out::text(rt, n),
        (b'P', 1) => {}
        _ => out::byte(rt, b's'),
    }
    out::bytes(rt, rest);
}

// A sentence over a few numbers.
pub fn numbers(rt: &impl Print, row: &[u32], sentence: &[u8]) {
    let mut pieces = sentence.split(is_percent);
    out::bytes(rt, pieces.next().unwrap_or(b""));
    for w in pieces {
        piece(rt, row, w);
    }
}

// A sentence over one number, `%n0`.
pub fn number(rt: &impl Print, n: u32, sentence: &[u8]) {
    numbers(rt, &[n], sentence);
}
