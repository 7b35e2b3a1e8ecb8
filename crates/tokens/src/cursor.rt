// A cursor over token records, ported from cursor.rs: an index, by value. The words end with the last record, so past the last
// token the kind is 0 and the index is the count of the tokens.
ghost use Rattle.std.specs.Prelude.{◌≡◌, ◌+◌};
ghost use Rattle.tokens.specs.Record.{kind_at};
ghost use Rattle.tokens.specs.Cursor.{tokens, is_word, is_kind, take_kind, take_word, take_in, at, advanced, to_taken, accepted};

use crate::{kind, record};

// A text with the words that hold the records of its tokens.
#[derive(Clone, Copy)]
pub struct Tokens<'a> {
    pub text: &'a [u8],
    pub words: &'a [u32],
}

#[derive(Clone, Copy)]
pub struct Cursor {
    pub index: usize,
}

// A refusal, at the token with an index: the count of the tokens stands for the end of the text. The number is that of the documents and
// of the C interface.
#[derive(Clone, Copy)]
pub struct Refusal {
    pub number: u32,
    pub token: usize,
    pub detail: u32,
}

// What a step takes: a value and the cursor behind it, or a refusal. A token's value is its number, 0 where it has none.
pub type Taken<T> = Result<(T, Cursor), Refusal>;

// A refusal with no detail.
pub fn refuse(number: u32, token: usize) -> Refusal
    ensures { result ≡ record { number = number; token = token; detail = 0 } }
{
    Refusal {
        number,
        token,
        detail: 0,
    }
}

impl<'a> Tokens<'a> {
    // The bytes of a word, or of a string between its quotes; none of any other token.
    #[tactic(auto, unfolding(crate::specs::Cursor::tokens, crate::specs::Cursor::bytes_of))]
    pub fn bytes(&self, i: usize) -> &'a [u8]
        ensures { result.now ≡ (tokens self.now.text.now self.now.words.now i).bytes }
    {
        match record::kind(self.words, i) {
            kind::WORD | kind::STRING => record::bytes(self.text, self.words, i),
            _ => &self.text[..0],
        }
    }
}

impl Cursor {
    pub fn new() -> Self
        ensures { result ≡ at 0 }
    {
        Cursor { index: 0 }
    }

    // The index of the token in hand.
    pub fn here(self) -> usize
        ensures { result ≡ self.index }
    {
        self.index
    }

    // The kind of the token in hand; 0 at the end.
    pub fn peek(self, words: &[u32]) -> u32
        ensures { result ≡ kind_at words.now self.index }
    {
        record::kind(words, self.index)
    }

    // The kind of the token behind it; 0 at the end.
    pub fn peek_second(self, words: &[u32]) -> u32
        ensures { result ≡ kind_at words.now (self.index + 1) }
    {
        let i = self.index;
        if record::count(words) <= i {
            return 0;
        }
        record::kind(words, i + 1)
    }

    // The cursor behind the token in hand; at the end it stays.
    pub fn advance(self, words: &[u32]) -> Cursor
        ensures { result ≡ at (advanced words.now self.index) }
    {
        let i = self.index;
        if record::count(words) <= i {
            return self;
        }
        Cursor { index: i + 1 }
    }

    // Is the token in hand of a kind?
    pub fn peek_is(self, t: &Tokens<'_>, kind: u32) -> bool
        ensures { result ≡ is_kind (tokens t.now.text.now t.now.words.now) kind self.index }
    {
        let here = self.peek(t.words);
        here != 0 && here == kind
    }

    // Is the token in hand this word?
    pub fn peek_kw(self, t: &Tokens<'_>, word: &[u8]) -> bool
        ensures { result ≡ is_word (tokens t.now.text.now t.now.words.now) word.now self.index }
    {
        if self.peek(t.words) == kind::WORD {
            return text::part::each_same(t.bytes(self.index), word);
        }
        false
    }

    // Behind the token in hand, if it is of a kind.
    pub fn accept(self, t: &Tokens<'_>, kind: u32) -> Option<Cursor>
        ensures { result ≡ accepted (is_kind (tokens t.now.text.now t.now.words.now) kind self.index) self.index }
    {
        if self.peek_is(t, kind) {
            return Some(self.advance(t.words));
        }
        None
    }

    // Behind the token in hand, if it is this word.
    pub fn accept_kw(self, t: &Tokens<'_>, word: &[u8]) -> Option<Cursor>
        ensures { result ≡ accepted (is_word (tokens t.now.text.now t.now.words.now) word.now self.index) self.index }
    {
        if self.peek_kw(t, word) {
            return Some(self.advance(t.words));
        }
        None
    }

    // The token in hand, if it is of a kind; else 20.
    pub fn expect(self, t: &Tokens<'_>, kind: u32) -> Taken<u32>
        ensures { result ≡ to_taken (take_kind (tokens t.now.text.now t.now.words.now) kind self.index) }
    {
        let i = self.index;
        if self.peek_is(t, kind) {
            return Ok((record::number(t.words, i), self.advance(t.words)));
        }
        Err(refuse(20, i))
    }

    // The token in hand, if it is this word; else 20.
    pub fn expect_kw(self, t: &Tokens<'_>, word: &[u8]) -> Taken<u32>
        ensures { result ≡ to_taken (take_word (tokens t.now.text.now t.now.words.now) word.now self.index) }
    {
        if self.peek_kw(t, word) {
            return Ok((0, self.advance(t.words)));
        }
        Err(refuse(20, self.index))
    }

    // Any word; its bytes stand at the index where the cursor stood.
    pub fn expect_ident(self, t: &Tokens<'_>) -> Taken<u32>
        ensures { result ≡ to_taken (take_kind (tokens t.now.text.now t.now.words.now) 1 self.index) }
    {
        self.expect(t, kind::WORD)
    }

    // A string; its bytes stand at the index where the cursor stood.
    pub fn expect_string(self, t: &Tokens<'_>) -> Taken<u32>
        ensures { result ≡ to_taken (take_kind (tokens t.now.text.now t.now.words.now) 2 self.index) }
    {
        self.expect(t, kind::STRING)
    }

    pub fn expect_int(self, t: &Tokens<'_>) -> Taken<u32>
        ensures { result ≡ to_taken (take_kind (tokens t.now.text.now t.now.words.now) 3 self.index) }
    {
        self.expect(t, kind::INTEGER)
    }

    pub fn expect_duration(self, t: &Tokens<'_>) -> Taken<u32>
        ensures { result ≡ to_taken (take_kind (tokens t.now.text.now t.now.words.now) 5 self.index) }
    {
        self.expect(t, kind::DURATION)
    }

    // An integer from low to high; else 20, or 22 at the number.
    #[tactic(auto, unfolding(crate::specs::Cursor::take_in, crate::specs::Cursor::to_taken))]
    pub fn expect_int_in(self, t: &Tokens<'_>, low: u32, high: u32) -> Taken<u32>
        ensures { result ≡ to_taken (take_in (tokens t.now.text.now t.now.words.now) low high self.index) }
    {
        let (n, next) = self.expect(t, kind::INTEGER)?;
        if n < low || high < n {
            return Err(refuse(22, self.index));
        }
        Ok((n, next))
    }
}
