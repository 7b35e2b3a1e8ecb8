// The replay program: reads cases and calls, hands each to the reader, and writes one answer for each. docs/REPLAY.md has its format.
#![tactic(auto)]

mod chain;
mod converting;
mod forms;
mod input;
mod joining;
mod layout;
mod report;
mod show;
mod written;

use sheet::{Call, Habit};
use std::io::{Cursor, Read, Write};

// Room for the longest text, sheet or topics, with their line end.
const BYTES: usize = 20001;

// The most words that a call lends.
const WORDS: usize = 8192;

// Bytes enough for the lines of any answer. The longest is that of a joining: fewer than 50 for each of 1,024 tokens of either text, fewer than 500 for
// each of eight entries. What finds no room is left out.
const ROOM: usize = 131072;

// The call of a habit.
fn read(
    call: Call,
    text: &[u8],
    sheet: &[u8],
    lent: &[u8],
    words: &mut [u32],
    answer: &mut [u32],
) -> u32 {
    let Call {
        habit,
        party,
        primary,
    } = call;
    match habit {
        Habit::Rule => tergyosul::tergyosul_read(text, sheet, lent, party, primary, words, answer),
        Habit::Archive => {
            tergyosul::tergyosul_read_archive(text, sheet, lent, party, primary, words, answer)
        }
        Habit::Shop => {
            tergyosul::tergyosul_read_shop(text, sheet, lent, party, primary, words, answer)
        }
    }
}

// Calls the reader with so many words and writes its answer; none where there are fewer.
fn answered(
    out: &mut impl Write,
    id: u64,
    call: Call,
    text: &[u8],
    sheet: &[u8],
    lent: &[u8],
    count: usize,
) -> Option<()> {
    let mut words = [layout::UNTOUCHED; WORDS];
    let mut answer = [layout::UNTOUCHED; layout::ANSWER];
    let number = read(
        call,
        text,
        sheet,
        lent,
        words.get_mut(..count)?,
        &mut answer,
    );
    let _ = report::case(out, id, text, &words, &answer, number);
    Some(())
}

// The archive loader's call that a case makes, whose primary adapter is the sheet's own.
fn archive_call(sheet: &[u8]) -> Call {
    Call {
        habit: Habit::Archive,
        party: 0,
        primary: tergyosul::tergyosul_sheet_primary(sheet) as u8,
    }
}

// What follows `case `; none where it is no case.
fn case(input: &mut impl Read, out: &mut impl Write) -> Option<()> {
    let id = input::number(input, b' ')?;
    let count = input::number(input, b' ')?;
    let text_size = input::number(input, b' ')?;
    let sheet_size = input::number(input, b'\n')?;
    let mut text = [0u8; BYTES];
    let mut sheet = [0u8; BYTES];
    let text = input::block(input, &mut text, text_size)?;
    let sheet = input::block(input, &mut sheet, sheet_size)?;
    answered(out, id, archive_call(sheet), text, sheet, b"", count)
}

// What follows `call `; none where it is no call.
fn call(input: &mut impl Read, out: &mut impl Write) -> Option<()> {
    let id = input::number(input, b' ')?;
    let habit = input::habit(input)?;
    let count = input::number(input, b' ')?;
    let call = Call {
        habit,
        party: input::number(input, b' ')?,
        primary: input::number(input, b' ')?,
    };
    let text_size = input::number(input, b' ')?;
    let sheet_size = input::number(input, b' ')?;
    let topics_size = input::number(input, b'\n')?;
    let mut text = [0u8; BYTES];
    let mut sheet = [0u8; BYTES];
    let mut topics = [0u8; BYTES];
    let text = input::block(input, &mut text, text_size)?;
    let sheet = input::block(input, &mut sheet, sheet_size)?;
    let lent = input::block(input, &mut topics, topics_size)?;
    answered(out, id, call, text, sheet, lent, count)
}

// The answer to one case, call, joining, chain, conversion or writing, which begins with a byte that is read already; none where it is none of them.
fn answer(input: &mut impl Read, out: &mut impl Write, first: u8) -> Option<()> {
    let mut rest = [0u8; 4];
    input.read_exact(&mut rest).ok()?;
    match (first, &rest) {
        (b'c', b"ase ") => case(input, out),
        (b'c', b"all ") => call(input, out),
        (b'j', b"oin ") => joining::answer(input, out),
        (b'n', b"ext ") => chain::answer(input, out),
        (b'r', b"ows ") => converting::rows(input, out),
        (b'b', b"ack ") => converting::back(input, out),
        (b'w', b"rite") => written::answer(input, out),
        _ => None,
    }
}

// Writes to standard output at once; what can't be written is lost.
fn print(rt: &impl Print, w: &[u8]) {
    let _ = rt.write_all(w);
}

// One answer, which is written to standard output; false at the end of the input, and where it has something else.
fn one(rt: &impl Print, input: &mut impl Read, out: &mut Cursor<[u8; ROOM]>) -> bool {
    let mut first = [0u8; 1];
    if input.read_exact(&mut first).is_err() {
        return false;
    }
    out.set_position(0);
    if answer(input, out, first[0]).is_none() {
        print(rt, b"bad input\n");
        return false;
    }
    let end = out.position() as usize;
    print(rt, text::part::part(out.get_ref(), 0, end));
    true
}

// A proved loop has to end, and nothing says that the input does: it counts up to a number that no run reaches.
fn main(rt: HostRuntime) {
    let mut input = rt.stdin();
    let mut out = Cursor::new([0u8; ROOM]);
    for _ in 0..u64::MAX {
        if !one(&rt, &mut input, &mut out) {
            break;
        }
    }
}
