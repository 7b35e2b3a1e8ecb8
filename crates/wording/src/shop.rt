// Refusals 57 to 59, which are about the shop profile: what is wrong, and the way out.
use crate::characters::Quoted;
use crate::fault::Fault;
use crate::{characters, items, lookup, marks, out, parts, reference, seen};
use sheet::names::{Form, Numbered};
use sheet::{View, kind, rows};

// The most names that a sheet has for one.
const MOST_NAMES: usize = rows::MAX_ROWS as usize;

pub fn is_of_shop(number: u32) -> bool {
    matches!(number, 57..=59)
}

pub fn title(rt: &impl Print, f: Fault<'_>) {
    match f.number {
        58 => out::text(rt, "the shop profile leaves out `broadcast`"),
        59 => out::text(rt, "the shop profile leaves out readings of `event`"),
        _ => {
            let kinds = parts::kinds_word(reference::kind(f.lexed, f.token));
            out::text(
                rt,
                format_args!("under the shop profile {kinds} are named, not numbered"),
            );
        }
    }
}

// What the id at the place refers to, with the adapter that is written there, if one is.
#[derive(Clone, Copy)]
struct Place<'a> {
    view: View<'a>,
    of: Numbered,
    scope: Option<u32>,
}

impl<'a> Place<'a> {
    fn of(sheet: &'a [u8], f: Fault<'_>) -> Self {
        let scope = reference::adapter(f.lexed, f.token);
        Place {
            view: View {
                sheet,
                settings: seen::settings(sheet, f.call),
            },
            of: Numbered {
                kind: reference::kind(f.lexed, f.token),
                adapter: scope.unwrap_or(f.call.primary as u32),
                number: f.value(),
            },
            scope,
        }
    }

    // A name for the number, by its order on the sheet; no bytes where there is none.
    fn name(self, k: usize) -> &'a [u8] {
        self.view.name_at(self.of, text::place::held(k))
    }

    fn form(self, name: &[u8]) -> Form {
        self.view.form_of(name, self.of)
    }

    // Can a name be written in the place of the number? It must be one that a rule can have and a terminal shows.
    fn is_offered(self, name: &[u8]) -> bool {
        characters::are_shown(name) && !matches!(self.form(name), Form::Nowise)
    }

    // Marks the names for the number that can be written in its place, by their order on the sheet.
    fn mark(self, marks: &mut [bool]) {
        for k in 0..MOST_NAMES {
            let name = self.name(k);
            if name.is_empty() {
                return;
            }
            marks::set(marks, k, self.is_offered(name));
        }
    }

    // The name as it is written in the place of the number, with its adapter behind it if it needs one that is not written: an argument of an input, and else a
    // whole reference.
    fn item(self, rt: &impl Print, k: usize) {
        let name = self.name(k);
        let is_input = self.of.kind == kind::INPUT;
        let is_written = is_input && self.scope.is_some();
        let (open, close) = if is_input { ("", "") } else { ("(", ")") };
        let word = items::word_of(self.of.kind);
        let adapter = self.of.adapter;
        let quoted = Quoted(name);
        if matches!(self.form(name), Form::WithAdapter) && !is_written {
            out::text(
                rt,
                format_args!("{word}{open}{quoted}, adapter={adapter}{close}"),
            );
            return;
        }
        out::text(rt, format_args!("{word}{open}{quoted}{close}"));
    }

    // No name can be written in the place of the number: the sheet has none, or none that a rule can have and that means it alone. A row gives it one.
    fn nameless(self, rt: &impl Print, party: u8) {
        lookup::for_party(rt, self.view.sheet, party);
        let fit = if self.name(0).is_empty() {
            ""
        } else {
            " that a rule could write"
        };
        let number = self.of.number;
        let adapter = self.of.adapter;
        let this = parts::kind_word(self.of.kind);
        let row = row_word(self.of.kind);
        out::text(
            rt,
            format_args!("the sheet has no name{fit} for {this} {number} on adapter {adapter}"),
        );
        out::text(
            rt,
            format_args!(": add a row {row},{adapter},{number},NAME"),
        );
    }
}

// The word for a kind in a row.
fn row_word(kind: u32) -> &'static str {
    match kind {
        kind::INPUT => "input",
        _ => items::word_of(kind),
    }
}

// 57: the names that the sheet has for the number.
fn named(rt: &impl Print, sheet: &[u8], f: Fault<'_>) {
    let place = Place::of(sheet, f);
    let mut marks = [false; MOST_NAMES];
    place.mark(&mut marks);
    if marks::count(&marks) == 0 {
        place.nameless(rt, f.call.party);
        return;
    }
    out::text(rt, "write ");
    marks::each(&marks, " or ", |before, k| {
        out::text(rt, before);
        place.item(rt, k);
    });
    if place.of.kind == kind::INPUT {
        out::text(rt, format_args!(" in the place of {}", place.of.number));
    }
}

pub fn help(rt: &impl Print, sheet: &[u8], f: Fault<'_>) {
    match f.number {
        57 => named(rt, sheet, f),
        58 => out::text(
            rt,
            "write a lamp or a group by its name, as in lamp(\"Till\") or group(\"Sales floor\")",
        ),
        _ => out::text(
            rt,
            "compare with a number, or with a reading of `lamp`, `group`, `input`, `time`, `sun` or `var`",
        ),
    }
}
