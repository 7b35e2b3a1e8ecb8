// The `next` lines of docs/REPLAY.md: the chain of conditions that follows a sequence of pieces (document 02, §13).
use crate::{input, layout, report};
use std::io::{Read, Result, Write};
use tergyosul::chain::{CHAIN_WORDS, COUNT, FIRST_PIECE};

// The most pieces of a start.
const PIECES: usize = 20000;

// The least and the most pieces that a line has room for.
const LEAST_SIZE: usize = 15;

const MOST_SIZE: usize = 8192;

// What every word of the answer is before a call.
const UNTOUCHED: u32 = 165;

// The next chain, that none follows, or the refusal.
fn result(out: &mut impl Write, answer: &[u32], number: u32) -> Result<()> {
    if number != 0 {
        return report::refused(out, answer);
    }
    let count = layout::word(answer, COUNT) as usize;
    if count == 0 {
        return out.write_all(b"\nnone");
    }
    out.write_all(b"\nchain")?;
    for piece in answer.iter().skip(FIRST_PIECE).take(count) {
        write!(out, " {piece}")?;
    }
    Ok(())
}

fn lines(out: &mut impl Write, id: u64, answer: &[u32], number: u32) -> Result<()> {
    write!(out, "case {id}")?;
    report::kept(out, answer, CHAIN_WORDS, UNTOUCHED)?;
    result(out, answer, number)?;
    out.write_all(b"\n")
}

// What follows `next `; none where it is no such line.
pub fn answer(input: &mut impl Read, out: &mut impl Write) -> Option<()> {
    let id = input::number(input, b' ')?;
    let size: usize = input::number(input, b' ')?;
    let count: usize = input::number(input, b'\n')?;
    let mut pieces = [0u8; PIECES];
    let mut answer = [UNTOUCHED; FIRST_PIECE + MOST_SIZE];
    if size < LEAST_SIZE {
        return None;
    }
    let start = pieces.get_mut(..count)?;
    let lent = answer.get_mut(..size.checked_add(FIRST_PIECE)?)?;
    input::line(input, start)?;
    let number = tergyosul::chain::tergyosul_next_chain(start, lent);
    let _ = lines(out, id, lent, number);
    Some(())
}
