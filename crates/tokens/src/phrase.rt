// Fixed words, in a row or to choose from. A list of them is one text, in which a space parts one from the next.
ghost use Rattle.std.specs.Prelude.{◌≡◌, get_or};
ghost use Rattle.tokens.specs.Cursor.{tokens, to_taken};
ghost use Rattle.tokens.specs.Phrase.{behind_word, choice_by, choice_at, phrase_at, either_at, point_choice, phrase_choice, point_phrase};

use crate::cursor::{Cursor, Taken, Tokens, refuse};
use crate::{kind, record};
use text::find::find;
use text::part::part;

// Behind the word of a list that begins at an offset, and behind its space, if that word is w; else 0.
fn behind_word(list: &[u8], at: usize, w: &[u8]) -> usize
    ensures { result ≡ behind_word list.now at w.now }
{
    let len = list.len();
    let size = w.len();
    if len <= at {
        return 0;
    }
    if len - at < size {
        return 0;
    }
    let end = at + size;
    for k in 0..size {
        let b = w[k];
        if list[at + k] != b {
            return 0;
        }
        if b == b' ' {
            return 0;
        }
    }
    if end == len {
        return end + 1;
    }
    if list[end] == b' ' { end + 1 } else { 0 }
}

// The first byte of a word; a space, which begins none, of no bytes.
fn first_byte(w: &[u8]) -> u8
    ensures { result ≡ get_or w.now 0 0x20 }
{
    w.first().copied().unwrap_or(b' ')
}

// Which word of a list is w, a word at the token i? One that is none of them is refused with a number.
fn choice_by(list: &[u8], number: u32, i: usize, behind: Cursor, w: &[u8]) -> Taken<u32>
    ensures { result ≡ to_taken (choice_by list.now number i behind.index w.now) }
{
    let first = first_byte(w);
    let mut n: usize = 0;
    let mut at: usize = 0;
    // From word to word, by the space that was found: no step is the same, so no `for` counts them, here and below.
    while at < list.len() {
        if list[at] == first {
            if behind_word(list, at, w) != 0 {
                if n < 4294967296 {
                    return Ok((n as u32, behind));
                }
                return Err(refuse(number, i));
            }
        }
        n += 1;
        at = find(list, at, b' ') + 1;
    }
    Err(refuse(number, i))
}

impl Cursor {
    // Any word, which must be one of a list; its place there. No word is refused with 20, another with a number.
    #[tactic(auto, unfolding(crate::specs::Phrase::choice_at, crate::specs::Cursor::to_taken))]
    pub fn expect_choice(self, t: &Tokens<'_>, list: &[u8], number: u32) -> Taken<u32>
        ensures { result ≡ to_taken (choice_at (tokens t.now.text.now t.now.words.now) list.now number self.index) }
    {
        let i = self.index;
        let (_, behind) = self.expect(t, kind::WORD)?;
        choice_by(list, number, i, behind, t.bytes(i))
    }

    // The words of a list, one after the other; else 20.
    pub fn expect_phrase(self, t: &Tokens<'_>, list: &[u8]) -> Taken<u32>
        ensures { result ≡ to_taken (phrase_at (tokens t.now.text.now t.now.words.now) list.now self.index) }
    {
        let mut i = self.index;
        let mut at: usize = 0;
        while at < list.len() {
            if record::kind(t.words, i) != kind::WORD {
                return Err(refuse(20, i));
            }
            at = behind_word(list, at, t.bytes(i));
            if at == 0 {
                return Err(refuse(20, i));
            }
            i += 1;
        }
        Ok((0, Cursor { index: i }))
    }

    // One of two phrases, 0 or 1, by the first word of the first; else 20.
    pub fn expect_either(self, t: &Tokens<'_>, first: &[u8], second: &[u8]) -> Taken<u32>
        ensures { result ≡ to_taken (either_at (tokens t.now.text.now t.now.words.now) first.now second.now self.index) }
    {
        let end = find(first, 0, b' ');
        if self.peek_kw(t, part(first, 0, end)) {
            let (_, behind) = self.expect_phrase(t, first)?;
            return Ok((0, behind));
        }
        let (_, behind) = self.expect_phrase(t, second)?;
        Ok((1, behind))
    }

    // A point and a word of a list, whose place it is; else 20, or 21 for another word.
    #[tactic(auto, unfolding(crate::specs::Phrase::point_choice, crate::specs::Cursor::to_taken))]
    pub fn expect_point_choice(self, t: &Tokens<'_>, list: &[u8]) -> Taken<u32>
        ensures { result ≡ to_taken (point_choice (tokens t.now.text.now t.now.words.now) list.now self.index) }
    {
        let (_, next) = self.expect(t, kind::POINT)?;
        next.expect_choice(t, list, 21)
    }

    // A phrase and a word of a list, whose place it is; else 20, or 21 for another word.
    #[tactic(auto, unfolding(crate::specs::Phrase::phrase_choice, crate::specs::Cursor::to_taken))]
    pub fn expect_phrase_choice(self, t: &Tokens<'_>, phrase: &[u8], list: &[u8]) -> Taken<u32>
        ensures { result ≡ to_taken (phrase_choice (tokens t.now.text.now t.now.words.now) phrase.now list.now self.index) }
    {
        let (_, next) = self.expect_phrase(t, phrase)?;
        next.expect_choice(t, list, 21)
    }

    // A point and a phrase; else 20.
    #[tactic(auto, unfolding(crate::specs::Phrase::point_phrase, crate::specs::Cursor::to_taken))]
    pub fn expect_point_phrase(self, t: &Tokens<'_>, list: &[u8]) -> Taken<u32>
        ensures { result ≡ to_taken (point_phrase (tokens t.now.text.now t.now.words.now) list.now self.index) }
    {
        let (_, next) = self.expect(t, kind::POINT)?;
        next.expect_phrase(t, list)
    }
}
