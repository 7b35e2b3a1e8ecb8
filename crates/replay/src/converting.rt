// The `rows` and `back` lines of docs/REPLAY.md: rows of the previous owners that are converted to triggers, and lists that are converted back (document 02, §10).
use crate::{BYTES, input, layout, report, written};
use std::io::{Read, Result, Write};

fn lines(out: &mut impl Write, id: u64, answer: &[u32], number: u32) -> Result<()> {
    write!(out, "case {id}")?;
    report::result(out, b"", answer, number)?;
    out.write_all(b"\n")
}

// What follows `rows `; none where it is no such line.
pub fn rows(input: &mut impl Read, out: &mut impl Write) -> Option<()> {
    let id = input::number(input, b' ')?;
    let party = input::number(input, b' ')?;
    let primary = input::number(input, b' ')?;
    let rows_size = input::number(input, b' ')?;
    let sheet_size = input::number(input, b'\n')?;
    let mut rows = [0u8; BYTES];
    let mut sheet = [0u8; BYTES];
    let mut answer = [layout::UNTOUCHED; layout::ANSWER];
    let number = tergyosul::converting::tergyosul_rows(
        input::block(input, &mut rows, rows_size)?,
        input::block(input, &mut sheet, sheet_size)?,
        party,
        primary,
        &mut answer,
    );
    let _ = lines(out, id, &answer, number);
    Some(())
}

// What follows `back `; none where it is no such line. Of the conditions only the count plays a part.
pub fn back(input: &mut impl Read, out: &mut impl Write) -> Option<()> {
    let id = input::number(input, b' ')?;
    let size: usize = input::number(input, b' ')?;
    let party = input::number(input, b' ')?;
    let primary = input::number(input, b' ')?;
    let sheet_size = input::number(input, b'\n')?;
    let mut sheet = [0u8; BYTES];
    let sheet = input::block(input, &mut sheet, sheet_size)?;
    let lists = written::lists(input)?;
    let mut buffer = [written::UNTOUCHED; written::MOST_SIZE];
    let w = old_rows::restore::back(
        sheet,
        party,
        primary,
        tergyosul::lists::without_texts(lists.triggers),
        lists.conditions.count as usize,
        buffer.get_mut(..size)?,
    );
    let _ = written::lines(out, id, &buffer, w);
    Some(())
}
