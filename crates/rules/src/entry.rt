// An entry of a rule that is read: which one it is, and its line in plain words.
use wording::{layout, out, rows, say};

// Counted from 1, among the triggers or among the conditions.
#[derive(Clone, Copy)]
pub enum Entry {
    Trigger(u32),
    Condition(u32),
}

impl Entry {
    // The entry with an ordinal, triggers first.
    pub fn of(answer: &[u32], ordinal: u32) -> Entry {
        let triggers = layout::triggers(answer);
        if ordinal <= triggers {
            return Entry::Trigger(ordinal);
        }
        Entry::Condition(ordinal - triggers)
    }

    // As in `trigger 2`.
    pub fn name(self, rt: &HostRuntime) {
        match self {
            Entry::Trigger(n) => say::number(rt, n, b"trigger %n0"),
            Entry::Condition(n) => say::number(rt, n, b"condition %n0"),
        }
    }

    // Its row in an answer.
    pub fn row(self) -> usize {
        match self {
            Entry::Trigger(n) => n as usize,
            Entry::Condition(n) => n as usize + 4,
        }
    }
}

// Is a row in use? Rows 1 to 4 are for triggers, 5 to 8 for conditions.
pub fn is_used(answer: &[u32], row: usize) -> bool {
    if row < 5 {
        return row <= layout::triggers(answer) as usize;
    }
    row - 4 <= layout::conditions(answer) as usize
}

// The line of a row; nothing where the row is not in use.
pub fn line(rt: &HostRuntime, text: &[u8], sheet: &[u8], answer: &[u32], row: usize) {
    if !is_used(answer, row) {
        return;
    }
    rows::show(rt, text, sheet, answer, row);
    out::line_end(rt);
}

// The last line of the output.
pub fn verdict(rt: &HostRuntime, answer: &[u32]) {
    say::numbers(rt, answer, b"accepted: %n4 trigger%P4, %n5 condition%P5\n");
}
