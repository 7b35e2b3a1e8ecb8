// The words of an answer: nine rows of twelve, as include/tergyosul.h says.

const ROWS: usize = 9;

const ROW_WORDS: usize = 12;

// The words of a row; none where there is no such row.
pub fn row(answer: &[u32], row: usize) -> &[u32] {
    answer.chunks(ROW_WORDS).take(ROWS).nth(row).unwrap_or(&[])
}

// Word k of a row, or of a part of one; 0 where there is none.
pub fn word(words: &[u32], k: usize) -> u32 {
    words.get(k).copied().unwrap_or(0)
}

// The words of a row, or of a part of one, from word k on.
pub fn behind(words: &[u32], k: usize) -> &[u32] {
    words.get(k..).unwrap_or(&[])
}

pub fn number(answer: &[u32]) -> u32 {
    word(answer, 0)
}

pub fn line(answer: &[u32]) -> u32 {
    word(answer, 1)
}

pub fn column(answer: &[u32]) -> u32 {
    word(answer, 2)
}

pub fn detail(answer: &[u32]) -> u32 {
    word(answer, 3)
}

pub fn triggers(answer: &[u32]) -> u32 {
    word(answer, 4)
}

pub fn conditions(answer: &[u32]) -> u32 {
    word(answer, 5)
}

// Of joining: the text that is refused, 1 or 2, else 0.
pub fn which(answer: &[u32]) -> u32 {
    word(answer, 6)
}

// Of joining: the text that the entry in a row is taken from, 1 or 2. Of one reading it is 0.
pub fn origin(answer: &[u32], row: u32) -> u32 {
    if row < 5 {
        return word(answer, 6 + row as usize);
    }
    word(answer, 11)
}
