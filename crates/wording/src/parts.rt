// The parts that triggers and conditions share, in plain words. A part is made of the words that it has in the row of an answer.
use crate::characters::{Quoted, Shown};
use crate::layout;
use crate::sheets::{Name, Question};
use sheet::kind;
use std::fmt;

// The word for a code, which counts from 1, of a list of words; none for another code.
pub fn word(list: &[&'static str], code: u32) -> &'static str {
    let k = code.checked_sub(1);
    k.and_then(|k| list.get(k as usize).copied()).unwrap_or("")
}

// The word for a kind.
pub fn kind_word(kind: u32) -> &'static str {
    match kind {
        kind::LAMP => "lamp",
        kind::GROUP => "group",
        kind::DEVICE => "device",
        kind::INPUT => "input device",
        _ => "",
    }
}

// The word for several of a kind.
pub fn kinds_word(kind: u32) -> &'static str {
    match kind {
        kind::LAMP => "lamps",
        kind::GROUP => "groups",
        kind::DEVICE => "devices",
        kind::INPUT => "input devices",
        _ => "",
    }
}

// The name that the sheet has for what is referred to, between parentheses, if it has one.
#[derive(Clone, Copy)]
pub struct NameOnSheet<'a>(&'a [u8]);

impl<'a> NameOnSheet<'a> {
    pub fn of(sheet: &'a [u8], kind: u32, adapter: u32, number: u32) -> Self {
        let q = Question {
            kind,
            adapter: Some(adapter),
            number: Some(number),
            name: Name::Any,
        };
        NameOnSheet(q.name_on(sheet))
    }
}

impl fmt::Display for NameOnSheet<'_> {
    fn fmt<W: fmt::Write>(&self, f: &mut fmt::Formatter<W>) -> fmt::Result {
        if self.0.is_empty() {
            return Ok(());
        }
        write!(f, " ({})", Quoted(self.0))
    }
}

// REF, of a kind: adapter and number.
#[derive(Clone, Copy)]
pub struct Reference<'a> {
    kind: u32,
    adapter: u32,
    number: u32,
    name: NameOnSheet<'a>,
}

impl<'a> Reference<'a> {
    pub fn of(sheet: &'a [u8], kind: u32, words: &[u32]) -> Self {
        let adapter = layout::word(words, 0);
        let number = layout::word(words, 1);
        Reference {
            kind,
            adapter,
            number,
            name: NameOnSheet::of(sheet, kind, adapter, number),
        }
    }
}

impl fmt::Display for Reference<'_> {
    fn fmt<W: fmt::Write>(&self, f: &mut fmt::Formatter<W>) -> fmt::Result {
        let kind = kind_word(self.kind);
        let number = self.number;
        let adapter = self.adapter;
        write!(f, "{kind} {number} on adapter {adapter}{}", self.name)
    }
}

// NAME: a range of the text's bytes, between quotes.
#[derive(Clone, Copy)]
pub struct Named<'a>(&'a [u8]);

impl<'a> Named<'a> {
    pub fn of(text: &'a [u8], words: &[u32]) -> Self {
        let start = layout::word(words, 0) as usize;
        let length = layout::word(words, 1) as usize;
        Named(text::part::part(text, start, start + length))
    }
}

impl fmt::Display for Named<'_> {
    fn fmt<W: fmt::Write>(&self, f: &mut fmt::Formatter<W>) -> fmt::Result {
        write!(f, "\"{}\"", Shown(self.0))
    }
}

// TARGET: a lamp, a group, or all lamps of an adapter.
#[derive(Clone, Copy)]
pub enum Target<'a> {
    One(Reference<'a>),
    AllLamps(u32),
}

impl<'a> Target<'a> {
    pub fn of(sheet: &'a [u8], words: &[u32]) -> Self {
        match layout::word(words, 0) {
            3 => Target::AllLamps(layout::word(words, 1)),
            kind => Target::One(Reference::of(sheet, kind, layout::behind(words, 1))),
        }
    }
}

impl fmt::Display for Target<'_> {
    fn fmt<W: fmt::Write>(&self, f: &mut fmt::Formatter<W>) -> fmt::Result {
        match self {
            Target::One(reference) => write!(f, "{reference}"),
            Target::AllLamps(adapter) => write!(f, "all lamps of adapter {adapter}"),
        }
    }
}

// A time of day, in minutes since midnight.
#[derive(Clone, Copy)]
pub struct Clock(pub u32);

impl fmt::Display for Clock {
    fn fmt<W: fmt::Write>(&self, f: &mut fmt::Formatter<W>) -> fmt::Result {
        let hour = self.0 / 60;
        let minute = self.0 % 60;
        write!(f, "{hour:02}:{minute:02}")
    }
}

// A duration in milliseconds, exactly: hours, minutes, seconds and milliseconds, those that are not 0.
#[derive(Clone, Copy)]
pub struct Duration(pub u32);

impl fmt::Display for Duration {
    fn fmt<W: fmt::Write>(&self, f: &mut fmt::Formatter<W>) -> fmt::Result {
        let ms = self.0;
        if ms == 0 {
            return f.write_str("0ms");
        }
        let parts = [
            (ms / 3600000, "h"),
            (ms / 60000 % 60, "m"),
            (ms / 1000 % 60, "s"),
            (ms % 1000, "ms"),
        ];
        let mut space = "";
        for (n, unit) in parts {
            if n != 0 {
                write!(f, "{space}{n}{unit}")?;
                space = " ";
            }
        }
        Ok(())
    }
}

// SUN and OFFSET: a solar event with its offset, which is of 32 bits in two's complement.
#[derive(Clone, Copy)]
pub struct Solar {
    event: &'static str,
    offset: u32,
}

impl Solar {
    pub fn of(words: &[u32]) -> Self {
        Solar {
            event: word(&["sunrise", "sunset"], layout::word(words, 0)),
            offset: layout::word(words, 1),
        }
    }
}

impl fmt::Display for Solar {
    fn fmt<W: fmt::Write>(&self, f: &mut fmt::Formatter<W>) -> fmt::Result {
        let event = self.event;
        match self.offset {
            0 => f.write_str(event),
            ms @ 1..=0x7FFFFFFF => write!(f, "{event}, {} later", Duration(ms)),
            ms => write!(f, "{event}, {} earlier", Duration(ms.wrapping_neg())),
        }
    }
}

// BOUND: a time of day, or a solar event with an offset.
#[derive(Clone, Copy)]
pub enum Bound {
    Clock(Clock),
    Solar(Solar),
}

impl Bound {
    pub fn of(words: &[u32]) -> Self {
        match layout::word(words, 0) {
            1 => Bound::Clock(Clock(layout::word(words, 1))),
            _ => Bound::Solar(Solar::of(layout::behind(words, 1))),
        }
    }
}

impl fmt::Display for Bound {
    fn fmt<W: fmt::Write>(&self, f: &mut fmt::Formatter<W>) -> fmt::Result {
        match self {
            Bound::Clock(clock) => write!(f, "{clock}"),
            Bound::Solar(solar) => write!(f, "{solar}"),
        }
    }
}
