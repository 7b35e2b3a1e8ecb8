// A text that is cut into tokens.
use tokens::{kind, record};

// The text, the records of its tokens, which are lent, and how many there are.
#[derive(Clone, Copy)]
pub struct Lexed<'a> {
    pub text: &'a [u8],
    pub words: &'a [u32],
    pub count: usize,
}

impl<'a> Lexed<'a> {
    pub fn kind(self, i: usize) -> u32 {
        record::kind(self.words, i)
    }

    pub fn number(self, i: usize) -> u32 {
        record::number(self.words, i)
    }

    pub fn length(self, i: usize) -> u32 {
        record::length(self.words, i)
    }

    // The bytes of a token: of a string, what stands between its quotes.
    pub fn bytes(self, i: usize) -> &'a [u8] {
        record::bytes(self.text, self.words, i)
    }

    // The bytes of the token that stands so many before another; none where there is none.
    pub fn before(self, i: usize, back: usize) -> &'a [u8] {
        i.checked_sub(back).map_or(b"", |k| self.bytes(k))
    }

    // Does the token with an index begin at a line and a column?
    fn begins_at(self, i: usize, line: u32, column: u32) -> bool {
        record::line(self.words, i) == line && record::column(self.words, i) == column
    }

    // The index of the token at a place; their count where there is none.
    pub fn at(self, line: u32, column: u32) -> usize {
        (0..self.count)
            .find(|i| self.begins_at(*i, line, column))
            .unwrap_or(self.count)
    }

    // Where a token begins, with the quote of a string.
    pub fn begin(self, i: usize) -> usize {
        let at = record::start(self.words, i) as usize;
        if self.kind(i) == kind::STRING {
            return at.saturating_sub(1);
        }
        at
    }

    // Where a token ends, with the quote of a string.
    pub fn end(self, i: usize) -> usize {
        let at = record::start(self.words, i) as usize + self.length(i) as usize;
        if self.kind(i) == kind::STRING {
            return at + 1;
        }
        at
    }
}
