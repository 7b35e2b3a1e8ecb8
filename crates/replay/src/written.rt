// The `write` lines of docs/REPLAY.md: two lists that are written out as a rule text (document 02, §7).
use crate::{BYTES, input, layout, report, show};
use std::io::{Read, Result, Write};
use writing::{ConditionsFrom, Lists, TriggersFrom, Written};

// The most bytes that a line lends.
pub const MOST_SIZE: usize = 8192;

// What every byte of them is before a call.
pub const UNTOUCHED: u8 = 165;

// The numbers of an entry: the text in which its names stand, and the words of its row.
const ENTRY: usize = layout::ROW + 1;

// The numbers of both lists: the two counts, and those of four triggers and of four conditions.
const NUMBERS: usize = 2 + 8 * ENTRY;

// The words of an entry's row.
fn row(numbers: &[u32; ENTRY]) -> [u32; layout::ROW] {
    let mut words = [0; layout::ROW];
    words.copy_from_slice(&numbers[1..]);
    words
}

// The line of both lists. Rows past a count may be anything.
pub fn lists(input: &mut impl Read) -> Option<Lists> {
    let mut numbers = [0; NUMBERS];
    input::line(input, &mut numbers)?;
    let (entries, _) = numbers[2..].as_chunks::<ENTRY>();
    let trigger = |i: usize| tergyosul::lists::trigger_from(entries[i][0], row(&entries[i]));
    let condition = |i: usize| tergyosul::lists::condition_from(entries[i][0], row(&entries[i]));
    Some(Lists {
        triggers: TriggersFrom {
            rows: [trigger(0), trigger(1), trigger(2), trigger(3)],
            count: numbers[0],
        },
        conditions: ConditionsFrom {
            rows: [condition(4), condition(5), condition(6), condition(7)],
            count: numbers[1],
        },
    })
}

// The text that was written, or the refusal.
fn result(out: &mut impl Write, buffer: &[u8], w: Written) -> Result<()> {
    if w.number != 0 {
        return report::refused(out, &[w.number, w.line, w.column, w.detail]);
    }
    show::line(out, b"", &[w.length], b"\nwritten #0")?;
    show::hex(out, text::part::part(buffer, 0, w.length as usize))
}

// The lines of one writing, or of one conversion back. A refusal writes no byte of the buffer.
pub fn lines(out: &mut impl Write, id: u64, buffer: &[u8], w: Written) -> Result<()> {
    write!(out, "case {id}")?;
    report::kept(out, buffer, w.length as usize, UNTOUCHED)?;
    result(out, buffer, w)?;
    out.write_all(b"\n")
}

// What follows `write`; none where it is no such line.
pub fn answer(input: &mut impl Read, out: &mut impl Write) -> Option<()> {
    input::follows(input, b" ")?;
    let id = input::number(input, b' ')?;
    let size: usize = input::number(input, b' ')?;
    let party = input::number(input, b' ')?;
    let primary = input::number(input, b' ')?;
    let first_size = input::number(input, b' ')?;
    let second_size = input::number(input, b' ')?;
    let sheet_size = input::number(input, b'\n')?;
    let mut first = [0u8; BYTES];
    let mut second = [0u8; BYTES];
    let mut sheet = [0u8; BYTES];
    let mut buffer = [UNTOUCHED; MOST_SIZE];
    let w = writer::write(
        input::block(input, &mut first, first_size)?,
        input::block(input, &mut second, second_size)?,
        input::block(input, &mut sheet, sheet_size)?,
        party,
        primary,
        lists(input)?,
        buffer.get_mut(..size)?,
    );
    let _ = lines(out, id, &buffer, w);
    Some(())
}
