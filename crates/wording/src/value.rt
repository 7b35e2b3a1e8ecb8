// Values in conditions, in plain words: numbers, and readings with perhaps a number added.
use crate::inputs::Input;
use crate::layout;
use crate::parts::{Named, Reference, word};
use sheet::kind;
use std::fmt;

// The readings, by their codes from 1 on; code 23 is a variable.
const PROPERTIES: [&str; 22] = [
    "level",
    "cct",
    "is_on",
    "last_level",
    "any_on",
    "all_off",
    "member_count",
    "occupied",
    "light",
    "position",
    "last_event_age",
    "time.now",
    "time.hour",
    "time.minute",
    "time.weekday",
    "sun.rise",
    "sun.set",
    "sun.is_up",
    "event.value",
    "event.device",
    "event.instance",
    "event.option",
];

// What a reading is of: something of a kind, a variable, or what needs nothing else.
#[derive(Clone, Copy, PartialEq, Eq)]
pub enum Source {
    Kind(u32),
    Variable,
    Nothing,
}

impl Source {
    pub fn of(code: u32) -> Self {
        match code {
            0..=4 => Source::Kind(kind::LAMP),
            5..=7 => Source::Kind(kind::GROUP),
            8..=11 => Source::Kind(kind::INPUT),
            23 => Source::Variable,
            _ => Source::Nothing,
        }
    }
}

// A reading: a property of a lamp, a group or an input, or of nothing, or a variable.
#[derive(Clone, Copy)]
enum Reading<'a> {
    OfInput(&'static str, Input<'a>),
    Of(&'static str, Reference<'a>),
    Variable(Named<'a>),
    Alone(&'static str),
}

impl<'a> Reading<'a> {
    // Of the words from the reading's code on.
    fn of(text: &'a [u8], sheet: &'a [u8], words: &[u32]) -> Self {
        let code = layout::word(words, 0);
        let property = word(&PROPERTIES, code);
        let rest = layout::behind(words, 1);
        match Source::of(code) {
            Source::Variable => Reading::Variable(Named::of(text, rest)),
            Source::Kind(kind::INPUT) => Reading::OfInput(property, Input::of(sheet, rest)),
            Source::Kind(kind) => Reading::Of(property, Reference::of(sheet, kind, rest)),
            Source::Nothing => Reading::Alone(property),
        }
    }
}

impl fmt::Display for Reading<'_> {
    fn fmt<W: fmt::Write>(&self, f: &mut fmt::Formatter<W>) -> fmt::Result {
        match self {
            Reading::OfInput(property, input) => write!(f, "the {property} of {input}"),
            Reading::Of(property, reference) => write!(f, "the {property} of {reference}"),
            Reading::Variable(name) => write!(f, "var {name}"),
            Reading::Alone(property) => f.write_str(property),
        }
    }
}

// VALUE, or a text.
#[derive(Clone, Copy)]
enum Operand<'a> {
    Number(i64),
    Reading(Reading<'a>),
    Sum(Reading<'a>, i64),
    Text(Named<'a>),
}

#[derive(Clone, Copy)]
pub struct Value<'a>(Operand<'a>);

// A number of 64 bits in two's complement, by its low and its high word.
fn signed(low: u32, high: u32) -> i64 {
    (high as u64 * 0x100000000 + low as u64).cast_signed()
}

impl<'a> Value<'a> {
    // Of the words from the value's kind on.
    pub fn of(text: &'a [u8], sheet: &'a [u8], words: &[u32]) -> Self {
        let rest = layout::behind(words, 1);
        let number = signed(layout::word(words, 5), layout::word(words, 6));
        Value(match layout::word(words, 0) {
            1 => Operand::Number(number),
            3 => Operand::Sum(Reading::of(text, sheet, rest), number),
            4 => Operand::Text(Named::of(text, rest)),
            _ => Operand::Reading(Reading::of(text, sheet, rest)),
        })
    }
}

impl fmt::Display for Value<'_> {
    fn fmt<W: fmt::Write>(&self, f: &mut fmt::Formatter<W>) -> fmt::Result {
        match self.0 {
            Operand::Number(n) => write!(f, "{n}"),
            Operand::Reading(reading) => write!(f, "{reading}"),
            Operand::Sum(reading, n) if n < 0 => write!(f, "{reading} - {}", n.unsigned_abs()),
            Operand::Sum(reading, n) => write!(f, "{reading} + {n}"),
            Operand::Text(name) => write!(f, "text {name}"),
        }
    }
}
