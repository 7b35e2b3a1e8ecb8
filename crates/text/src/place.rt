// Places: an offset with its line and column, which count characters from 1.
ghost use Rattle.std.specs.Prelude.{◌≡◌, ◌+◌};
ghost use Rattle.text.specs.Utf8.{chars};
ghost use Rattle.text.specs.Place.{counted, after, start, step_of, walked, check_of, Judged};

use crate::utf8;
use crate::utf8::Decoded;

#[derive(Clone, Copy)]
pub struct Place {
    pub at: usize,
    pub line: u32,
    pub column: u32,
}

// Refusal 4: the first place where no character begins.
#[derive(Clone, Copy)]
pub struct IllFormed {
    pub line: u32,
    pub column: u32,
}

// One more, up to the greatest number.
#[tactic(auto, using(crate::proofs::Tests::steps), unfolding(crate::specs::Place::counted))]
pub fn count_up(n: u32) -> u32
    ensures { result ≡ counted (n + 1) }
{
    n.saturating_add(1)
}

// A number as far as a word of 32 bits holds it.
#[tactic(auto, using(crate::proofs::Tests::steps), unfolding(crate::specs::Place::counted))]
pub fn held(n: usize) -> u32
    ensures { result ≡ counted n }
{
    u32::try_from(n).unwrap_or(u32::MAX)
}

impl Place {
    // Where a text begins.
    pub fn start() -> Self
        ensures { result ≡ start }
    {
        Place {
            at: 0,
            line: 1,
            column: 1,
        }
    }

    // The place behind a character that ends at the offset next.
    pub fn after(self, code: u32, next: usize) -> Self
        ensures { result ≡ after self (record { code = code; next = next }) }
    {
        if code == 0xA {
            return Place {
                at: next,
                line: count_up(self.line),
                column: 1,
            };
        }
        Place {
            at: next,
            line: self.line,
            column: count_up(self.column),
        }
    }

    // The character at this place of s and the place behind it; none where no character begins. A byte below 0x80 is one by itself, and for
    // speed read in place.
    pub fn bump(self, s: &[u8]) -> Option<(u32, Place)>
        ensures { result ≡ step_of self (chars s.now self.at) }
    {
        let at = self.at;
        if at < s.len() {
            let b = s[at];
            if b < 0x80 {
                let code = u32::from(b);
                return Some((code, self.after(code, at + 1)));
            }
        }
        self.decoded(s)
    }

    // The same, with no short way for a byte below 0x80: for a caller that has seen that none stands there.
    pub fn decoded(self, s: &[u8]) -> Option<(u32, Place)>
        ensures { result ≡ step_of self (chars s.now self.at) }
    {
        match utf8::decode(s, self.at) {
            Decoded::Char { code, next } => Some((code, self.after(code, next))),
            Decoded::Bad | Decoded::End => None,
        }
    }

    // The place behind the last of the characters of s that stand in a row from here.
    pub fn walk(self, s: &[u8]) -> Self
        ensures { result ≡ walked self (chars s.now self.at) }
    {
        let mut p = self;
        while let Some((_, next)) = p.bump(s) {
            p = next;
        }
        p
    }
}

// Is s well-formed UTF-8? Else the first place where no character begins. For speed places are counted only where one is answered.
pub fn check_utf8(s: &[u8]) -> Result<(), IllFormed>
    ensures value { result ≡ check_of s.now }
    ensures rules { Judged s.now result }
{
    if utf8::row_end(s) == s.len() {
        return Ok(());
    }
    let p = Place::start().walk(s);
    Err(IllFormed {
        line: p.line,
        column: p.column,
    })
}
