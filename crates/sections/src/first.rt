// The first words of triggers and of conditions. Each is compared by itself, and the compiler makes a few tests of all these comparisons: a list that
// is gone through word by word (tokens::phrase) costs the more, the later the word stands in it.
ghost use Rattle.std.specs.Prelude.{◌≡◌, drop, ltb};
ghost use Rattle.text.specs.Choice.{pick};
ghost use Rattle.tokens.specs.Result.{ok, refuse};
ghost use Rattle.tokens.specs.Cursor.{tokens, to_taken};
ghost use Rattle.tokens.specs.Phrase.{words_in, position, choice_at};
ghost use Rattle.language.specs.Trigger.{trigger_words};
ghost use Rattle.language.specs.Condition.{condition_words};
ghost use Rattle.sections.specs.First.{first_words, place_from};

use tokens::cursor::{Cursor, Taken, Tokens};
use tokens::kind;

// How many there are, of triggers as of conditions.
const FIRST_WORDS: u32 = 13;

// The place of a word among the first words of triggers; their count where it is none. Three functions share the comparisons, so that each is
// proved by search.
fn trigger_place(w: &[u8]) -> u32
    ensures { result ≡ position w.now (words_in trigger_words) }
{
    if text::part::same(w, b"input") {
        return 0;
    }
    if text::part::same(w, b"at") {
        return 1;
    }
    if text::part::same(w, b"every") {
        return 2;
    }
    if text::part::same(w, b"lamp") {
        return 3;
    }
    if text::part::same(w, b"group") {
        return 4;
    }
    trigger_place_from_five(w)
}

fn trigger_place_from_five(w: &[u8]) -> u32
    ensures { result ≡ place_from 5 w.now (drop 5 (words_in trigger_words)) }
{
    if text::part::same(w, b"scene") {
        return 5;
    }
    if text::part::same(w, b"device") {
        return 6;
    }
    if text::part::same(w, b"hcl") {
        return 7;
    }
    if text::part::same(w, b"timer") {
        return 8;
    }
    trigger_place_from_nine(w)
}

fn trigger_place_from_nine(w: &[u8]) -> u32
    ensures { result ≡ place_from 9 w.now (drop 9 (words_in trigger_words)) }
{
    if text::part::same(w, b"controller") {
        return 9;
    }
    if text::part::same(w, b"rule") {
        return 10;
    }
    if text::part::same(w, b"http") {
        return 11;
    }
    if text::part::same(w, b"mqtt") {
        return 12;
    }
    FIRST_WORDS
}

// The same for conditions.
fn condition_place(w: &[u8]) -> u32
    ensures { result ≡ position w.now (words_in condition_words) }
{
    if text::part::same(w, b"time") {
        return 0;
    }
    if text::part::same(w, b"sun") {
        return 1;
    }
    if text::part::same(w, b"lamp") {
        return 2;
    }
    if text::part::same(w, b"group") {
        return 3;
    }
    if text::part::same(w, b"input") {
        return 4;
    }
    condition_place_from_five(w)
}

fn condition_place_from_five(w: &[u8]) -> u32
    ensures { result ≡ place_from 5 w.now (drop 5 (words_in condition_words)) }
{
    if text::part::same(w, b"hcl") {
        return 5;
    }
    if text::part::same(w, b"device") {
        return 6;
    }
    if text::part::same(w, b"rule") {
        return 7;
    }
    if text::part::same(w, b"last_fired") {
        return 8;
    }
    condition_place_from_nine(w)
}

fn condition_place_from_nine(w: &[u8]) -> u32
    ensures { result ≡ place_from 9 w.now (drop 9 (words_in condition_words)) }
{
    if text::part::same(w, b"timer") {
        return 9;
    }
    if text::part::same(w, b"controller") {
        return 10;
    }
    if text::part::same(w, b"var") {
        return 11;
    }
    if text::part::same(w, b"day") {
        return 12;
    }
    FIRST_WORDS
}

// The answer for the word at the token i, by its place: one that has none is refused with 21.
#[tactic(auto, unfolding(text::specs::Choice::pick, tokens::specs::Cursor::to_taken))]
fn placed(n: u32, i: usize, behind: Cursor) -> Taken<u32>
    ensures { result ≡ to_taken (pick (ltb n first_words) (ok n behind.index) (refuse 21 i)) }
{
    if n < FIRST_WORDS {
        return Ok((n, behind));
    }
    Err(tokens::cursor::refuse(21, i))
}

// The place of a trigger's first word: no word is refused with 20, another with 21.
#[tactic(auto, unfolding(tokens::specs::Phrase::choice_at, tokens::specs::Cursor::to_taken))]
pub fn trigger_word(c: Cursor, t: &Tokens<'_>) -> Taken<u32>
    ensures { result ≡ to_taken (choice_at (tokens t.now.text.now t.now.words.now) trigger_words 21 c.index) }
{
    let i = c.index;
    let (_, behind) = c.expect(t, kind::WORD)?;
    placed(trigger_place(t.bytes(i)), i, behind)
}

// The place of a condition's first word, likewise.
#[tactic(auto, unfolding(tokens::specs::Phrase::choice_at, tokens::specs::Cursor::to_taken))]
pub fn condition_word(c: Cursor, t: &Tokens<'_>) -> Taken<u32>
    ensures { result ≡ to_taken (choice_at (tokens t.now.text.now t.now.words.now) condition_words 21 c.index) }
{
    let i = c.index;
    let (_, behind) = c.expect(t, kind::WORD)?;
    placed(condition_place(t.bytes(i)), i, behind)
}
