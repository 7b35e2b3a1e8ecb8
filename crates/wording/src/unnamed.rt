// Refusal 62: why a trigger gets no row of the archive. The sheet is what the party sees of it.
use crate::characters::{Quoted, Shown};
use crate::sheets::{MOST_LINES, Name, Question};
use crate::{items, layout, out, source, split};
use sheet::{Settings, View, kind, line};

#[derive(Clone, Copy, PartialEq, Eq)]
enum Reason {
    // The adapter is not listed.
    Unlisted,
    // No row of the sheet has a name for it.
    NoRow,
    // None of the names that the sheet has for it fits.
    NoName,
}

// What a trigger speaks of, by its adapter and its number.
#[derive(Clone, Copy)]
struct Subject<'a> {
    sheet: &'a [u8],
    kind: u32,
    adapter: u32,
    number: u32,
}

impl<'a> Subject<'a> {
    // Of the trigger in a row.
    fn of(sheet: &'a [u8], answer: &[u32], row: usize) -> Self {
        let words = layout::row(answer, row);
        Subject {
            sheet,
            kind: match layout::word(words, 0) {
                12 => kind::GROUP,
                14 => kind::DEVICE,
                _ => kind::LAMP,
            },
            adapter: layout::word(words, 1),
            number: layout::word(words, 2),
        }
    }

    // The rows of the sheet that name it.
    fn rows<'b>(self, name: Name<'b>) -> Question<'b> {
        Question {
            kind: self.kind,
            adapter: Some(self.adapter),
            number: Some(self.number),
            name,
        }
    }

    fn reason(self, settings: Settings) -> Reason {
        let view = View {
            sheet: self.sheet,
            settings,
        };
        if !view.adapter_exists(self.adapter) {
            return Reason::Unlisted;
        }
        if self.rows(Name::Any).has(self.sheet) {
            return Reason::NoName;
        }
        Reason::NoRow
    }

    // Why a name does not fit that the sheet has for it.
    fn unfit(self, rt: &impl Print, name: &[u8]) {
        let quoted = Quoted(name);
        if name.contains(&b',') {
            out::text(rt, format_args!("{quoted} has a comma"));
            return;
        }
        let word = items::word_of(self.kind);
        let adapter = self.adapter;
        out::text(
            rt,
            format_args!("{quoted} stands in several {word} rows of adapter {adapter}"),
        );
    }

    // What is said of the name in the line with an index, if it is one for it that no line before has.
    fn note(self, rt: &impl Print, n: usize, l: &[u8]) {
        if !self.rows(Name::Any).fits(l) {
            return;
        }
        let name = line::name_of(l);
        let first = self.rows(Name::Is(name)).first(self.sheet);
        if first.is_some_and(|k| k < n) {
            return;
        }
        source::margin(rt, 0, b'=');
        out::text(rt, " note: ");
        self.unfit(rt, name);
        out::line_end(rt);
    }

    fn notes(self, rt: &impl Print) {
        let lines = self.sheet.split(split::is_line_end).take(MOST_LINES);
        for (n, l) in lines.enumerate() {
            self.note(rt, n, l);
        }
    }
}

// What is wrong with the trigger in a row, in words that follow `and`.
pub fn wrong(rt: &impl Print, sheet: &[u8], settings: Settings, answer: &[u32], row: usize) {
    out::text(
        rt,
        match Subject::of(sheet, answer, row).reason(settings) {
            Reason::Unlisted => "no row of the sheet lists its adapter",
            Reason::NoRow => "the sheet has no row with a name for it",
            Reason::NoName => "none of the names that the sheet has for it can stand in a row",
        },
    );
}

// What is said of each name, if there are any that do not fit, and the way out.
pub fn show(
    rt: &impl Print,
    sheet: &[u8],
    settings: Settings,
    answer: &[u32],
    row: usize,
    sheet_name: &[u8],
) {
    let subject = Subject::of(sheet, answer, row);
    let reason = subject.reason(settings);
    if reason == Reason::NoName {
        subject.notes(rt);
    }
    source::before_help(rt, 0);
    match reason {
        Reason::Unlisted => out::text(
            rt,
            format_args!("put the row `adapter,{}` into", subject.adapter),
        ),
        Reason::NoRow => out::text(rt, "add a row with a name for it to"),
        Reason::NoName => out::text(rt, "add a row with a name of its own without a comma to"),
    }
    out::text(rt, format_args!(" {}\n", Shown(sheet_name)));
}
