// Days of the week: a set of them in plain words, and the way out of refusal 50.
use crate::fault::Fault;
use crate::{layout, near, out};
use std::fmt;
use tokens::kind;

// The days from Monday on. The word for a day is the front of its English name.
const NAMES: [&str; 7] = [
    "monday",
    "tuesday",
    "wednesday",
    "thursday",
    "friday",
    "saturday",
    "sunday",
];

const WORDS: [&str; 7] = ["mon", "tue", "wed", "thu", "fri", "sat", "sun"];

const WORD_LETTERS: usize = 3;

// DAYS for all of them.
const EVERY_DAY: u32 = 127;

// DAYS, the sum of 1 for Monday, 2 for Tuesday, and so on to 64 for Sunday; shown from Monday to Sunday however the rule has them, of three or more in a row the
// first and the last.
#[derive(Clone, Copy)]
pub struct Days(pub u32);

impl Days {
    // Is a day in the set, 0 for Monday to 6 for Sunday?
    fn has(self, d: usize) -> bool {
        d < WORDS.len() && self.0 >> d & 1 == 1
    }

    // Is the day in the set that comes so many before another in the week?
    fn has_before(self, d: usize, back: usize) -> bool {
        d.checked_sub(back).is_some_and(|k| self.has(k))
    }

    // Is a day shown? It is not if it stands between two others of the set.
    fn is_shown(self, d: usize) -> bool {
        self.has(d) && !(self.has_before(d, 1) && self.has(d.saturating_add(1)))
    }

    // What stands before a day that is shown: `to` if it is the last of three or more in a row, a comma if it is not the first of all.
    fn joint(self, d: usize, is_first: bool) -> &'static str {
        if self.has_before(d, 1) && self.has_before(d, 2) {
            return " to ";
        }
        if is_first { "" } else { ", " }
    }
}

impl fmt::Display for Days {
    fn fmt<W: fmt::Write>(&self, f: &mut fmt::Formatter<W>) -> fmt::Result {
        let mut is_first = true;
        for (d, word) in WORDS.iter().enumerate() {
            if self.is_shown(d) {
                write!(f, "{}{word}", self.joint(d, is_first))?;
                is_first = false;
            }
        }
        Ok(())
    }
}

// DAYS behind a time; nothing for every day.
#[derive(Clone, Copy)]
pub struct OnDays(pub u32);

impl fmt::Display for OnDays {
    fn fmt<W: fmt::Write>(&self, f: &mut fmt::Formatter<W>) -> fmt::Result {
        if self.0 == EVERY_DAY {
            return Ok(());
        }
        write!(f, " on {}", Days(self.0))
    }
}

// OFFSET and DAYS behind a solar event with its offset. The days are parted from the offset, which counts on all of them.
#[derive(Clone, Copy)]
pub struct BehindOffset {
    has_offset: bool,
    days: u32,
}

impl BehindOffset {
    pub fn of(words: &[u32]) -> Self {
        BehindOffset {
            has_offset: layout::word(words, 0) != 0,
            days: layout::word(words, 1),
        }
    }
}

impl fmt::Display for BehindOffset {
    fn fmt<W: fmt::Write>(&self, f: &mut fmt::Formatter<W>) -> fmt::Result {
        let comma = if self.has_offset && self.days != EVERY_DAY {
            ","
        } else {
            ""
        };
        write!(f, "{comma}{}", OnDays(self.days))
    }
}

// Is the word a slip for a day, or the day's English name, whole, cut short or with a slip? A word of two letters is no slip: `on` is none for `mon`.
fn is_meant(w: &[u8], word: &str, name: &str) -> bool {
    if near::is_front(w, name.as_bytes()) || near::is_near(name.as_bytes(), w) {
        return true;
    }
    WORD_LETTERS <= w.len() && near::is_near(word.as_bytes(), w)
}

// The day that a word is meant for, as it is written in a rule.
fn meant(w: &[u8]) -> Option<&'static str> {
    let days = WORDS.iter().copied().zip(NAMES.iter().copied());
    for (word, name) in days {
        if is_meant(w, word, name) {
            return Some(word);
        }
    }
    None
}

// 50: the day that is meant, or how a day set is written.
pub fn help(rt: &impl Print, f: Fault<'_>) {
    if let Some(word) = meant(f.bytes()) {
        out::text(rt, format_args!("did you mean `{word}`?"));
        return;
    }
    let before = f.token.checked_sub(1);
    let is_behind_comma = before.is_some_and(|k| f.lexed.kind(k) == kind::COMMA);
    out::text(
        rt,
        if is_behind_comma {
            "a day stands behind each comma: write one, or drop the comma"
        } else {
            "write days and ranges of them, parted by commas, as in `mon..fri, sun`"
        },
    );
}
