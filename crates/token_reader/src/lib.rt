// A reader that holds the lent token words beside an index, ported from cursor.rs; `peek` and `advance` leave the work to the cursor by value.
#![tactic(auto)]

ghost use Rattle.std.specs.Prelude.{◌≡◌};
ghost use Rattle.tokens.specs.Record.{kind_at};
ghost use Rattle.tokens.specs.Cursor.{advanced};

use tokens::cursor::Cursor;

#[derive(Clone, Copy)]
pub struct TokenReader<'a> {
    pub words: &'a [u32],
    pub index: usize,
}

// At the first token.
pub fn new<'a>(words: &'a [u32]) -> TokenReader<'a>
    ensures { (result.words ≡ words.entry) × (result.index ≡ 0) }
{
    TokenReader { words, index: 0 }
}

// The kind of the token in hand; 0 at the end.
pub fn peek<'a>(r: TokenReader<'a>) -> u32
    ensures { result ≡ kind_at r.entry.words.now r.entry.index }
{
    let c = Cursor { index: r.index };
    c.peek(r.words)
}

// The reader behind the token in hand, over the same words; at the end it stays.
pub fn advance<'a>(r: TokenReader<'a>) -> TokenReader<'a>
    ensures { (result.words ≡ r.entry.words) × (result.index ≡ advanced r.entry.words.now r.entry.index) }
{
    let c = Cursor { index: r.index };
    let next = c.advance(r.words);
    TokenReader {
        words: r.words,
        index: next.index,
    }
}

// The kind of the second token; 0 where there is none. Its parameter is a plain slice.
pub fn second_kind(words: &[u32]) -> u32
    ensures { result ≡ kind_at words.now 1 }
{
    peek(advance(new(words)))
}
