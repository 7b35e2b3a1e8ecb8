// `rules rows-back RULES SHEET`, with perhaps options, where the rule is accepted: its rows, alone on standard output, and what was left out of the original on
// standard error. Or one diagnostic.
use crate::checking::Accepted;
use crate::entry::{self, Entry};
use crate::reading::LEX_ANSWER;
use crate::{reading, writing_out};
use wording::lexed::Lexed;
use wording::{layout, out, rewritten, say, seen, source, unnamed};

// File, number and entry, before what is wrong with it.
fn head(rt: &HostRuntime, a: Accepted<'_>, number: u32, e: Entry) {
    out::shown(rt, a.rule.name);
    say::number(rt, number, b": refusal %n0: ");
    e.name(rt);
}

// The entry, in plain words.
fn line(rt: &HostRuntime, a: Accepted<'_>, e: Entry) {
    out::line_end(rt);
    out::shown(rt, a.rule.name);
    out::bytes(rt, b": ");
    entry::line(rt, a.rule.bytes, a.setting.sheet.bytes, a.answer, e.row());
}

// The last line of the output.
fn verdict(rt: &HostRuntime, number: u32, e: Entry) {
    say::number(rt, number, b"refused: %n0 at ");
    e.name(rt);
    out::line_end(rt);
}

// Of 61: what is wrong with an entry.
fn wrong(e: Entry) -> &'static [u8] {
    match e {
        Entry::Trigger(_) => b" is none that a row says",
        Entry::Condition(_) => b" has no place: rows have no conditions",
    }
}

// The way out of 61.
fn way_out(e: Entry) -> &'static [u8] {
    match e {
        Entry::Trigger(_) => {
            b" help: a row says that a lamp turns on or off, a group becomes any_on or all_off, or a device goes offline or comes online: keep this trigger in a rule\n"
        }
        Entry::Condition(_) => b" help: keep the rule, or leave its `if` part out\n",
    }
}

// 61: an entry is none that a row says.
fn unsaid(rt: &HostRuntime, a: Accepted<'_>, e: Entry) {
    head(rt, a, 61, e);
    out::bytes(rt, wrong(e));
    line(rt, a, e);
    source::margin(rt, 0, b'=');
    out::bytes(rt, way_out(e));
    verdict(rt, 61, e);
}

// 62: a trigger has no name that a row may have.
fn without_name(rt: &HostRuntime, a: Accepted<'_>, e: Entry) {
    let sheet = a.setting.sheet;
    let settings = seen::settings(sheet.bytes, a.setting.call);
    head(rt, a, 62, e);
    out::bytes(rt, b" needs a name in its row, and ");
    unnamed::wrong(rt, sheet.bytes, settings, a.answer, e.row());
    line(rt, a, e);
    unnamed::show(rt, sheet.bytes, settings, a.answer, e.row(), sheet.name);
    verdict(rt, 62, e);
}

// Says what was left out of the rule.
fn left_out(rt: &HostRuntime, text: &[u8], words: &mut [u32], rows: &[u8]) {
    let mut answer = [0u32; LEX_ANSWER];
    reading::lex(text, words, &mut answer);
    let count = layout::detail(&answer) as usize;
    rewritten::show_rows(&rt.stderr(), Lexed { text, words, count }, rows);
}

// What came of converting a rule that is accepted, said with what its party sees of the sheet.
pub fn run(rt: &HostRuntime, a: Accepted<'_>, words: &mut [u32]) {
    let mut buffer = [0u8; old_rows::restore::LEAST_BYTES];
    let w = a.setting.back(a.rule.bytes, words, &mut buffer);
    let e = Entry::of(a.answer, w.line);
    match w.number {
        0 => {
            let rows = text::part::part(&buffer, 0, w.length as usize);
            left_out(rt, a.rule.bytes, words, rows);
            out::bytes(rt, rows);
        }
        61 => unsaid(rt, a, e),
        62 => without_name(rt, a, e),
        number => writing_out::faulty(rt, number),
    }
}
