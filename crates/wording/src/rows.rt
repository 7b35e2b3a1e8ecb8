// Triggers and conditions in plain words. Their kinds, and the choices in them, are the numbers that include/tergyosul.h gives them.
use crate::day::{BehindOffset, Days, OnDays};
use crate::inputs::{Event, Input, Selector};
use crate::parts::{Bound, Clock, Duration, Named, Reference, Solar, Target, word};
use crate::value::Value;
use crate::{layout, out};
use sheet::kind;
use std::fmt;

// The row of an entry, with the text and the sheet that its words speak of. A part is made of the words from an index on.
#[derive(Clone, Copy)]
struct Entry<'a> {
    text: &'a [u8],
    sheet: &'a [u8],
    words: &'a [u32],
}

impl<'a> Entry<'a> {
    fn n(self, k: usize) -> u32 {
        layout::word(self.words, k)
    }

    fn from(self, k: usize) -> &'a [u32] {
        layout::behind(self.words, k)
    }

    fn choice(self, list: &[&'static str], k: usize) -> &'static str {
        word(list, self.n(k))
    }

    fn reference(self, kind: u32, k: usize) -> Reference<'a> {
        Reference::of(self.sheet, kind, self.from(k))
    }

    fn lamp(self) -> Reference<'a> {
        self.reference(kind::LAMP, 1)
    }

    fn group(self) -> Reference<'a> {
        self.reference(kind::GROUP, 1)
    }

    fn device(self) -> Reference<'a> {
        self.reference(kind::DEVICE, 1)
    }

    fn input_device(self) -> Reference<'a> {
        self.reference(kind::INPUT, 1)
    }

    fn input(self) -> Input<'a> {
        Input::of(self.sheet, self.from(1))
    }

    fn name(self) -> Named<'a> {
        Named::of(self.text, self.from(1))
    }

    fn target(self) -> Target<'a> {
        Target::of(self.sheet, self.from(1))
    }

    fn value(self, k: usize) -> Value<'a> {
        Value::of(self.text, self.sheet, self.from(k))
    }

    fn selector(self) -> Selector<'a> {
        Selector::of(self.sheet, self.from(1))
    }

    fn event(self) -> Event {
        Event::of(self.from(5))
    }

    fn clock(self) -> Clock {
        Clock(self.n(1))
    }

    fn solar(self) -> Solar {
        Solar::of(self.from(1))
    }

    fn behind_offset(self) -> BehindOffset {
        BehindOffset::of(self.from(2))
    }

    fn bound(self, k: usize) -> Bound {
        Bound::of(self.from(k))
    }

    fn duration(self, k: usize) -> Duration {
        Duration(self.n(k))
    }

    fn is_on(self) -> &'static str {
        self.choice(&["on", "off"], 3)
    }

    fn is_any_on(self) -> &'static str {
        self.choice(&["any_on", "all_off"], 3)
    }

    fn is_occupied(self) -> &'static str {
        self.choice(&["occupied", "vacant"], 4)
    }

    fn is_enabled(self) -> &'static str {
        self.choice(&["enabled", "overridden"], 4)
    }

    fn starts(self) -> &'static str {
        self.choice(&["starts", "clears"], 4)
    }

    fn moves(self) -> &'static str {
        self.choice(&["goes", "comes"], 3)
    }

    fn is_offline(self) -> &'static str {
        self.choice(&["offline", "online"], 3)
    }

    fn side(self, k: usize) -> &'static str {
        self.choice(&["above", "below"], k)
    }

    // The relation and the value that a level, a cct or a variable is compared with.
    fn compared(self) -> Compared<'a> {
        Compared {
            relation: self.choice(&["==", "!=", ">=", "<=", ">", "<"], 3),
            value: self.value(4),
        }
    }
}

#[derive(Clone, Copy)]
struct Compared<'a> {
    relation: &'static str,
    value: Value<'a>,
}

impl fmt::Display for Compared<'_> {
    fn fmt<W: fmt::Write>(&self, f: &mut fmt::Formatter<W>) -> fmt::Result {
        write!(f, "{} {}", self.relation, self.value)
    }
}

// A trigger, by its kind.
#[derive(Clone, Copy)]
struct Trigger<'a>(Entry<'a>);

impl Trigger<'_> {
    // Kinds 1 to 6, of inputs.
    fn of_input<W: fmt::Write>(self, f: &mut fmt::Formatter<W>) -> fmt::Result {
        let e = self.0;
        match e.n(0) {
            1 => write!(f, "when {} reports {}", e.selector(), e.event()),
            2 => write!(f, "when {} becomes {}", e.input(), e.is_occupied()),
            3 => {
                let input = e.input();
                let side = e.side(4);
                write!(f, "when the light of {input} crosses {side} {}", e.n(5))
            }
            4 => write!(f, "when the position of {} changes", e.input()),
            5 => write!(f, "when {} is power cycled", e.input_device()),
            _ => write!(f, "when {} has its manual config changed", e.input_device()),
        }
    }

    // Kinds 7 to 9, of time.
    fn of_time<W: fmt::Write>(self, f: &mut fmt::Formatter<W>) -> fmt::Result {
        let e = self.0;
        match e.n(0) {
            7 => write!(f, "when at {}{}", e.clock(), OnDays(e.n(2))),
            8 => write!(f, "when at {}{}", e.solar(), e.behind_offset()),
            _ => write!(f, "when every {}", e.duration(1)),
        }
    }
}

impl fmt::Display for Trigger<'_> {
    fn fmt<W: fmt::Write>(&self, f: &mut fmt::Formatter<W>) -> fmt::Result {
        let e = self.0;
        match e.n(0) {
            1..=6 => self.of_input(f),
            7..=9 => self.of_time(f),
            10 => write!(f, "when {} turns {}", e.lamp(), e.is_on()),
            11 => {
                let lamp = e.lamp();
                let side = e.side(3);
                write!(f, "when the level of {lamp} crosses {side} {}", e.n(4))
            }
            12 => write!(f, "when {} becomes {}", e.group(), e.is_any_on()),
            13 => {
                let scene = e.n(2);
                write!(f, "when scene {scene} on adapter {} is recalled", e.n(1))
            }
            14 => write!(f, "when {} {} {}", e.device(), e.moves(), e.is_offline()),
            15 => write!(f, "when the hcl override {} for {}", e.starts(), e.target()),
            16 => write!(f, "when timer {} fires", e.name()),
            17 => f.write_str("when the controller starts"),
            18 => f.write_str("when the controller becomes active"),
            19 => write!(f, "when rule {} fails", e.name()),
            20 => f.write_str("when the http trigger comes"),
            21 => write!(f, "when a message comes on topic {}", e.name()),
            _ => f.write_str("when something else happens"),
        }
    }
}

// A condition, by its kind.
#[derive(Clone, Copy)]
struct Condition<'a>(Entry<'a>);

impl fmt::Display for Condition<'_> {
    fn fmt<W: fmt::Write>(&self, f: &mut fmt::Formatter<W>) -> fmt::Result {
        let e = self.0;
        match e.n(0) {
            1 => write!(f, "the time is from {} to {}", e.bound(1), e.bound(4)),
            2 => write!(f, "the sun is {}", e.choice(&["up", "down"], 1)),
            3 => write!(f, "{} is {}", e.lamp(), e.is_on()),
            4 => write!(f, "{} has a level {}", e.lamp(), e.compared()),
            5 => write!(f, "{} has a cct {}", e.lamp(), e.compared()),
            6 => write!(f, "{} is {}", e.group(), e.is_any_on()),
            7 => write!(f, "{} is {}", e.input(), e.is_occupied()),
            8 => write!(f, "{} has light {} {}", e.input(), e.side(4), e.value(5)),
            9 => write!(f, "hcl is {} for {}", e.is_enabled(), e.target()),
            10 => write!(f, "{} is online", e.device()),
            11 => write!(f, "rule {} is enabled", e.name()),
            12 => write!(
                f,
                "rule {} last fired more than {} ago",
                e.name(),
                e.duration(3)
            ),
            13 => write!(f, "timer {} is running", e.name()),
            14 => f.write_str("the controller is active"),
            15 => write!(f, "var {} {}", e.name(), e.compared()),
            16 => write!(f, "the day is in {}", Days(e.n(1))),
            _ => f.write_str("something else holds"),
        }
    }
}

// What is in a row: rows 1 to 4 are for triggers, 5 to 8 for conditions, of which the first begins with `if`, the others with `and`.
pub fn show(rt: &impl Print, text: &[u8], sheet: &[u8], answer: &[u32], row: usize) {
    let entry = Entry {
        text,
        sheet,
        words: layout::row(answer, row),
    };
    match row {
        0..=4 => out::text(rt, Trigger(entry)),
        5 => out::text(rt, format_args!("if {}", Condition(entry))),
        _ => out::text(rt, format_args!("and {}", Condition(entry))),
    }
}
