// A rule and the text that is written for it, compared: what was left out, and what is written in one form. What is said of it stands beside the output.
use crate::archive::{Field, Row};
use crate::lexed::Lexed;
use crate::{out, split};
use tokens::kind;

// The tokens by their classes. Adapters stay where they are, and show to what they belong.
#[derive(Clone, Copy, PartialEq, Eq)]
enum Class {
    Names,
    Times,
    Durations,
    Days,
    Inputs,
    Adapters,
    Numbers,
}

// The classes, in the order in which they are spoken of.
const CLASSES: [Class; 7] = [
    Class::Names,
    Class::Times,
    Class::Durations,
    Class::Days,
    Class::Inputs,
    Class::Adapters,
    Class::Numbers,
];

impl Class {
    // What is said where the tokens of a class differ.
    fn sentence(self) -> &'static str {
        match self {
            Class::Names => {
                "left out: names of lamps, groups, devices and inputs; ids stand in their place\n"
            }
            Class::Times => "in one form: times, with two digits on each side\n",
            Class::Durations => {
                "in one form: durations, in ms up to 1000000000ms, else in s; a solar offset of 0 is left out\n"
            }
            Class::Days => {
                "in one form: days, one by one from mon; `on` is left out before all seven\n"
            }
            Class::Inputs => {
                "in one form: the arguments of inputs, by name in the order dev, inst, group, type, adapter; types are numbers\n"
            }
            Class::Adapters => {
                "in one form: `adapter=`, which stands only where the adapter is not the primary one\n"
            }
            Class::Numbers => {
                "in one form: numbers, without leading zeros; 0 has no `-`, and only what is added has `+`\n"
            }
        }
    }
}

// What a byte of a rule belongs to: a comment, a string, or neither.
#[derive(Clone, Copy, PartialEq, Eq)]
enum Inside {
    Neither,
    String,
    Comment,
}

impl Inside {
    // What the byte behind one belongs to.
    fn behind(self, b: u8) -> Self {
        match (self, b) {
            (Inside::Comment, b'\n') | (Inside::String, b'"') => Inside::Neither,
            (Inside::Comment, _) | (Inside::Neither, b'#') => Inside::Comment,
            (Inside::String, _) | (Inside::Neither, b'"') => Inside::String,
            _ => Inside::Neither,
        }
    }
}

// How many comments a rule has that is cut into tokens.
fn comments(rule: &[u8]) -> u32 {
    let mut n = 0;
    let mut before = Inside::Neither;
    for b in rule {
        let here = before.behind(*b);
        if here == Inside::Comment && before != Inside::Comment {
            n = text::place::count_up(n);
        }
        before = here;
    }
    n
}

// Does one space stand between the token with an index and the next?
fn is_space_behind(rule: Lexed<'_>, i: usize) -> bool {
    let next = rule.begin(i.saturating_add(1));
    matches!(text::part::part(rule.text, rule.end(i), next), b" ")
}

// Does a rule stand on one line, with one space between any two tokens, and perhaps a line end behind them?
fn is_laid_out(rule: Lexed<'_>) -> bool {
    let last = rule.count.saturating_sub(1);
    let behind = text::part::part(rule.text, rule.end(last), rule.text.len());
    rule.begin(0) == 0
        && (0..last).all(|i| is_space_behind(rule, i))
        && matches!(behind, b"" | b"\n")
}

// The class of a word: days, and `on` before them; the arguments of inputs, and types; and `adapter` with all others.
fn class_of_word(word: &[u8]) -> Option<Class> {
    match word {
        b"on" => None,
        b"dev" | b"inst" | b"group" | b"type" | b"button" | b"absolute" | b"occupancy" | b"light" =>
            Some(Class::Inputs),
        b"mon" | b"tue" | b"wed" | b"thu" | b"fri" | b"sat" | b"sun" => Some(Class::Days),
        _ => Some(Class::Adapters),
    }
}

// The class of an integer: one that begins with a zero and goes on is written otherwise.
fn class_of_integer(digits: &[u8]) -> Option<Class> {
    match digits {
        [b'0', _, ..] => Some(Class::Numbers),
        _ => None,
    }
}

// The class of the token with an index, if it has one. A sign before an integer has that of numbers.
fn class_at(rule: Lexed<'_>, i: usize) -> Option<Class> {
    match rule.kind(i) {
        kind::STRING => Some(Class::Names),
        kind::TIME => Some(Class::Times),
        kind::DURATION => Some(Class::Durations),
        kind::POINTS => Some(Class::Days),
        kind::WORD => class_of_word(rule.bytes(i)),
        kind::INTEGER => class_of_integer(rule.bytes(i)),
        kind::PLUS | kind::MINUS if rule.kind(i.saturating_add(1)) == kind::INTEGER => {
            Some(Class::Numbers)
        }
        _ => None,
    }
}

// The index of the next token of some classes, from an index on.
fn next<F: Fn(Class) -> bool>(rule: Lexed<'_>, at: usize, is_in: &F) -> Option<usize>
    requires { F.IsAlwaysCallable is_in.now }
{
    (at..rule.count).find(|i| class_at(rule, *i).is_some_and(|c| is_in(c)))
}

// Do the tokens of some classes differ, taken in their order?
fn differ<F: Fn(Class) -> bool>(rule: Lexed<'_>, written: Lexed<'_>, is_in: F) -> bool
    requires { F.IsAlwaysCallable is_in }
{
    let mut i = next(rule, 0, &is_in);
    let mut j = next(written, 0, &is_in);
    for _ in 0..rule.count {
        let (Some(a), Some(b)) = (i, j) else {
            return i.is_some() || j.is_some();
        };
        if !text::part::same(rule.bytes(a), written.bytes(b)) {
            return true;
        }
        i = next(rule, a.saturating_add(1), &is_in);
        j = next(written, b.saturating_add(1), &is_in);
    }
    j.is_some()
}

// How many comments of a rule were left out, if any were.
fn of_comments(aside: &impl Print, rule: &[u8]) {
    match comments(rule) {
        0 => {}
        1 => out::text(aside, "left out: 1 comment\n"),
        n => out::text(aside, format_args!("left out: {n} comments\n")),
    }
}

// Do the tokens of a class differ? Where the words of arguments differ, but neither class by itself, `adapter=` stands in another place among the arguments of an
// input.
fn is_other(rule: Lexed<'_>, written: Lexed<'_>, class: Class) -> bool {
    let by_itself = differ(rule, written, |c| c == class);
    if class != Class::Inputs || by_itself {
        return by_itself;
    }
    differ(rule, written, |c| {
        c == Class::Inputs || c == Class::Adapters
    }) && !differ(rule, written, |c| c == Class::Adapters)
}

// Says what was left out of a rule, and what is written in one form: only what is the case. Are there names that ids stand for?
pub fn show(aside: &impl Print, rule: Lexed<'_>, written: Lexed<'_>) -> bool {
    let mut is_same = is_laid_out(rule);
    of_comments(aside, rule.text);
    if !is_same {
        out::text(
            aside,
            "left out: the layout; the rule is one line, with one space between any two tokens\n",
        );
    }
    for class in CLASSES {
        if is_other(rule, written, class) {
            out::text(aside, class.sentence());
            is_same = false;
        }
    }
    if is_same {
        out::text(aside, "nothing is left out: the rule was in this form\n");
    }
    is_other(rule, written, Class::Names)
}

// Are the names in rows of the archive those that stand in the rule, one by one?
fn has_names(rule: Lexed<'_>, rows: &[u8]) -> bool {
    let mut at = 0;
    for l in rows.split_inclusive(split::is_line_end) {
        let row = Row(l.strip_suffix(b"\n").unwrap_or(l));
        match next(rule, at, &|c| c == Class::Names) {
            Some(i) if text::part::same(rule.bytes(i), row.field(Field::Name)) => {
                at = i.saturating_add(1)
            }
            _ => return false,
        }
    }
    true
}

// Says what was left out of a rule for which rows of the archive were made, and if they have other names.
pub fn show_rows(aside: &impl Print, rule: Lexed<'_>, rows: &[u8]) {
    of_comments(aside, rule.text);
    if !has_names(rule, rows) {
        out::text(
            aside,
            "in one form: names; the first on the sheet that fits stands for an id or another name\n",
        );
    }
}
