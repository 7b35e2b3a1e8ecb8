// The range of a number that is out of it. The reader itself is asked: the text is read anew, by the call that refused it, with another number in its
// place. No topics are lent for that: they have no part in it.
use crate::diagnose::Refusal;
use crate::given::{BYTES, Setting};
use crate::reading::ANSWER;
use tokens::record;
use wording::{layout, out, trial};

// Puts the text with a number in the place of what stands from an offset to another. It stands on a line of its own.
fn put(trial: &mut [u8], text: &[u8], from: usize, behind: usize, number: &[u8]) -> usize {
    let at = trial::bytes(trial, 0, text::part::part(text, 0, from));
    let at = trial::byte(trial, at, b'\n');
    let at = trial::bytes(trial, at, number);
    trial::bytes(trial, at, text::part::part(text, behind, text.len()))
}

// What the reader answers to a number in the place of the one that is refused.
fn asked(r: Refusal<'_>, number: &[u8]) -> [u32; ANSWER] {
    let mut trial = [0u8; BYTES];
    let mut words = [0u32; tokens::lexer::LEAST_WORDS];
    let mut answer = [0u32; ANSWER];
    let f = r.fault;
    let start = record::start(f.lexed.words, f.token) as usize;
    let behind = start + f.lexed.length(f.token) as usize;
    let at = put(&mut trial, r.rule.bytes, f.at, behind, number);
    let alone = Setting {
        topics: b"",
        ..r.setting
    };
    alone.read(text::part::part(&trial, 0, at), &mut words, &mut answer);
    answer
}

// The line that the number stands on then.
fn line_of(r: Refusal<'_>) -> u32 {
    text::place::count_up(r.fault.line)
}

// Does the reader take a number at the place?
fn is_in_range(r: Refusal<'_>, number: &[u8]) -> bool {
    let answer = asked(r, number);
    match layout::number(&answer) {
        22 => layout::line(&answer) != line_of(r),
        refused => refused == 0 || 19 < refused,
    }
}

// Is every number at the place refused by the shop profile, since a name belongs there?
fn is_id(r: Refusal<'_>) -> bool {
    let answer = asked(r, b"0");
    layout::number(&answer) == 57 && layout::line(&answer) == line_of(r)
}

// The last of the greatest numbers that is in range; none if none is.
fn greatest<'a>(r: Refusal<'_>, list: &'a [u8]) -> Option<&'a [u8]> {
    list.split(|b| *b == b' ')
        .filter(|number| is_in_range(r, number))
        .last()
}

// The numbers that may stand there: from 0 on, to the greatest that some form of the language has and the reader takes there.
pub fn show(rt: &HostRuntime, r: Refusal<'_>) {
    if is_id(r) {
        out::bytes(
            rt,
            b"write its name in quotes: the shop profile takes no number here",
        );
        return;
    }
    match greatest(r, b"15 31 63 254 255 1023") {
        Some(number) => {
            out::bytes(rt, b"write a number from 0 to ");
            out::bytes(rt, number);
        }
        None => out::bytes(rt, b"the manual has the range of each number"),
    }
}
