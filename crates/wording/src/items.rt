// What is in a set, listed as it may be written in a rule.
use crate::characters::{Backquoted, Quoted};
use crate::{marks, out, split};
use sheet::kind;
use std::fmt;

// The member behind all candidates, of which there are at most so many.
pub const END: usize = 255;

// How a lamp, a group, a device or an input is referred to: by its number, with its adapter behind it if one is needed, or by its name and its adapter.
#[derive(Clone, Copy)]
pub enum Id<'a> {
    Number { number: usize, adapter: Option<u32> },
    Name { name: &'a [u8], adapter: usize },
}

// A reference as it is written; of an input only the arguments that tell it from others.
#[derive(Clone, Copy)]
pub struct Reference<'a> {
    pub kind: u32,
    pub id: Id<'a>,
}

// The word for a kind in a rule; for an input, which has other arguments, none.
pub fn word_of(kind: u32) -> &'static str {
    match kind {
        kind::LAMP => "lamp",
        kind::GROUP => "group",
        kind::DEVICE => "device",
        _ => "",
    }
}

impl fmt::Display for Id<'_> {
    fn fmt<W: fmt::Write>(&self, f: &mut fmt::Formatter<W>) -> fmt::Result {
        match *self {
            Id::Number {
                number,
                adapter: None,
            } => write!(f, "{number}"),
            Id::Number {
                number,
                adapter: Some(adapter),
            } => write!(f, "{number}, adapter={adapter}"),
            Id::Name { name, adapter } => write!(f, "{}, adapter={adapter}", Quoted(name)),
        }
    }
}

impl fmt::Display for Reference<'_> {
    fn fmt<W: fmt::Write>(&self, f: &mut fmt::Formatter<W>) -> fmt::Result {
        let id = self.id;
        match id {
            Id::Name { adapter, .. } if self.kind == kind::INPUT => write!(f, "adapter={adapter}"),
            Id::Number { .. } if self.kind == kind::INPUT => write!(f, "dev={id}"),
            _ => write!(f, "{}({id})", word_of(self.kind)),
        }
    }
}

// A word of a list of candidates, or what it stands for, as END does for the end of the text.
#[derive(Clone, Copy)]
struct Candidate<'a> {
    list: &'a [u8],
    k: usize,
}

impl fmt::Display for Candidate<'_> {
    fn fmt<W: fmt::Write>(&self, f: &mut fmt::Formatter<W>) -> fmt::Result {
        match self.k {
            0 => f.write_str("a text in quotes"),
            1 => f.write_str("a number"),
            2 => f.write_str("a time"),
            3 => f.write_str("a duration"),
            k if k < END => write!(f, "{}", Backquoted(split::word(self.list, k))),
            _ => f.write_str("the end of the text"),
        }
    }
}

// The members as numbers of things of a kind, with the adapter behind each if one is needed.
pub fn numbers(rt: &impl Print, kind: u32, adapter: Option<u32>, marks: &[bool]) {
    marks::each(marks, " or ", |before, number| {
        let id = Id::Number { number, adapter };
        out::text(rt, format_args!("{before}{}", Reference { kind, id }));
    });
}

// The members as adapters of things of a kind that have a name.
pub fn names(rt: &impl Print, kind: u32, name: &[u8], marks: &[bool]) {
    marks::each(marks, " or ", |before, adapter| {
        let id = Id::Name { name, adapter };
        out::text(rt, format_args!("{before}{}", Reference { kind, id }));
    });
}

// The members as words of a list of candidates.
pub fn words(rt: &impl Print, list: &[u8], marks: &[bool]) {
    marks::each(marks, " or ", |before, k| {
        out::text(rt, format_args!("{before}{}", Candidate { list, k }));
    });
}
