// The answer to one case, as lines of output. Each is written with the line end before it.
use crate::{layout, show};
use std::io::{Result, Write};
use tokens::record::{self, RECORD_SIZE};

// Written at once and not by fields, for speed: an answer may have two thousand such lines.
fn token(out: &mut impl Write, words: &[u32], i: usize) -> Result<()> {
    write!(
        out,
        "\ntoken {} {} {} {} {} {}",
        record::kind(words, i),
        record::number(words, i),
        record::start(words, i),
        record::length(words, i),
        record::line(words, i),
        record::column(words, i)
    )
}

// Whether a buffer is as it was before the call from an index on: each of it is what stood there.
pub fn kept<T: PartialEq + Copy>(
    out: &mut impl Write,
    buffer: &[T],
    from: usize,
    before: T,
) -> Result<()> {
    if buffer.iter().skip(from).all(|x| *x == before) {
        return out.write_all(b"\nbuffer kept");
    }
    out.write_all(b"\nbuffer changed")
}

// The records that the call wrote, which end before the first whose kind is untouched; and whether the rest is untouched.
pub fn buffer(out: &mut impl Write, words: &[u32]) -> Result<()> {
    let most = record::count(words);
    let count = (0..most)
        .position(|i| record::kind(words, i) == layout::UNTOUCHED)
        .unwrap_or(most);
    for i in 0..count {
        token(out, words, i)?;
    }
    kept(
        out,
        words,
        count.saturating_mul(RECORD_SIZE),
        layout::UNTOUCHED,
    )
}

// A refusal, by its number, place and detail.
pub fn refused(out: &mut impl Write, answer: &[u32]) -> Result<()> {
    show::line(out, b"", answer, b"\nrefused #0 #1 #2 #3")
}

// What was read, or the refusal.
pub fn result(out: &mut impl Write, text: &[u8], answer: &[u32], number: u32) -> Result<()> {
    if number != 0 {
        return refused(out, answer);
    }
    show::line(out, b"", answer, b"\naccepted #4 #5")?;
    for i in 0..layout::word(answer, layout::TRIGGER_COUNT) as usize {
        show::line(
            out,
            text,
            layout::row(answer, layout::TRIGGERS + i),
            b"\nT T0",
        )?;
    }
    for i in 0..layout::word(answer, layout::CONDITION_COUNT) as usize {
        show::line(
            out,
            text,
            layout::row(answer, layout::CONDITIONS + i),
            b"\nC C0",
        )?;
    }
    Ok(())
}

// The lines of one case.
pub fn case(
    out: &mut impl Write,
    id: u64,
    text: &[u8],
    words: &[u32],
    answer: &[u32],
    number: u32,
) -> Result<()> {
    write!(out, "case {id}")?;
    buffer(out, words)?;
    result(out, text, answer, number)?;
    out.write_all(b"\n")
}
