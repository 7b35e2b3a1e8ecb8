// The words that a call writes, as include/tergyosul.h says: the records of the tokens, and the answer in rows. Row 0 is number, line, column, detail and
// the two counts, rows 1 to 4 are the triggers, rows 5 to 8 the conditions.

// What every word is before a call.
pub const UNTOUCHED: u32 = 4294967295;

// The words of a row.
pub const ROW: usize = 12;

// The words of an answer.
pub const ANSWER: usize = 108;

// Where the count of the triggers stands.
pub const TRIGGER_COUNT: usize = 4;

// Where the count of the conditions stands.
pub const CONDITION_COUNT: usize = 5;

// Where the words begin that say which text each trigger of a joining is taken from.
pub const TRIGGERS_FROM: usize = 7;

// Where the word stands that says it of the conditions.
pub const CONDITIONS_FROM: usize = 11;

// What these words say of the first text.
pub const FIRST_TEXT: u32 = 1;

// The row of the first trigger.
pub const TRIGGERS: usize = 1;

// The row of the first condition.
pub const CONDITIONS: usize = 5;

// The type of an instance group for which none is given.
pub const NO_TYPE: u32 = 4294967295;

// The set of all seven days: the sum of 1 for Monday, 2 for Tuesday, and so on to 64 for Sunday.
pub const EVERY_DAY: u32 = 127;

// The word with an index; 0 where there is none.
pub fn word(words: &[u32], i: usize) -> u32 {
    words.get(i).copied().unwrap_or(0)
}

// The row of an answer with an index; no words where there is none.
pub fn row(answer: &[u32], i: usize) -> &[u32] {
    answer.chunks_exact(ROW).nth(i).unwrap_or(&[])
}
