// Inputs and their events in plain words. A part is made of the words that it has in the row of an answer.
use crate::layout;
use crate::parts::{NameOnSheet, word};
use sheet::kind;
use std::fmt;

// INPUT: adapter, number and instance.
#[derive(Clone, Copy)]
pub struct Input<'a> {
    adapter: u32,
    number: u32,
    instance: u32,
    name: NameOnSheet<'a>,
}

impl<'a> Input<'a> {
    pub fn of(sheet: &'a [u8], words: &[u32]) -> Self {
        let adapter = layout::word(words, 0);
        let number = layout::word(words, 1);
        Input {
            adapter,
            number,
            instance: layout::word(words, 2),
            name: NameOnSheet::of(sheet, kind::INPUT, adapter, number),
        }
    }
}

impl fmt::Display for Input<'_> {
    fn fmt<W: fmt::Write>(&self, f: &mut fmt::Formatter<W>) -> fmt::Result {
        let number = self.number;
        let instance = self.instance;
        let adapter = self.adapter;
        write!(
            f,
            "input device {number}, instance {instance}, on adapter {adapter}{}",
            self.name
        )
    }
}

// The type of an instance group, if one is given: its number, and its word if it has one.
#[derive(Clone, Copy)]
pub struct InputType(Option<u32>);

impl fmt::Display for InputType {
    fn fmt<W: fmt::Write>(&self, f: &mut fmt::Formatter<W>) -> fmt::Result {
        let Some(n) = self.0 else {
            return Ok(());
        };
        match word(&["button", "absolute", "occupancy", "light"], n) {
            "" => write!(f, " of type {n}"),
            word => write!(f, " of type {n} ({word})"),
        }
    }
}

// SELECTOR: one instance, or an instance group.
#[derive(Clone, Copy)]
pub enum Selector<'a> {
    Instance(Input<'a>),
    Group {
        adapter: u32,
        group: u32,
        of: InputType,
    },
}

impl<'a> Selector<'a> {
    pub fn of(sheet: &'a [u8], words: &[u32]) -> Self {
        if layout::word(words, 0) == 1 {
            return Selector::Instance(Input::of(sheet, layout::behind(words, 1)));
        }
        let n = layout::word(words, 3);
        Selector::Group {
            adapter: layout::word(words, 1),
            group: layout::word(words, 2),
            of: InputType(if n == u32::MAX { None } else { Some(n) }),
        }
    }
}

impl fmt::Display for Selector<'_> {
    fn fmt<W: fmt::Write>(&self, f: &mut fmt::Formatter<W>) -> fmt::Result {
        match self {
            Selector::Instance(input) => write!(f, "{input}"),
            Selector::Group { adapter, group, of } => {
                write!(f, "instance group {group}{of} on adapter {adapter}")
            }
        }
    }
}

// The words for events, by their codes from 1 on; code 13 is a raw event with its data.
const EVENTS: [&str; 12] = [
    "press",
    "release",
    "short_press",
    "double_press",
    "long_press_start",
    "long_press_repeat",
    "long_press_stop",
    "button_free",
    "button_stuck",
    "movement",
    "no_movement",
    "any_event",
];

// EVENT: a code, and the data of a raw event.
#[derive(Clone, Copy)]
pub enum Event {
    Raw(u32),
    Word(&'static str),
}

impl Event {
    pub fn of(words: &[u32]) -> Self {
        match layout::word(words, 0) {
            13 => Event::Raw(layout::word(words, 1)),
            code => Event::Word(word(&EVENTS, code)),
        }
    }
}

impl fmt::Display for Event {
    fn fmt<W: fmt::Write>(&self, f: &mut fmt::Formatter<W>) -> fmt::Result {
        match self {
            Event::Raw(data) => write!(f, "event with data {data}"),
            Event::Word(word) => f.write_str(word),
        }
    }
}
