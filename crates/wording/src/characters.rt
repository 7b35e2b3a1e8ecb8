// The characters of bytes that should be UTF-8, and texts of others as a terminal may show them.
ghost use Rattle.std.specs.Prelude.{length};
ghost use Rattle.std.specs.Iterator.{at_most};

use std::fmt;
use text::utf8::Decoded;

// The most characters of a name or a word that are shown.
const MOST_SHOWN: usize = 60;

// What stands for characters that are left out.
pub const ELLIPSIS: &str = "…";

// A character's code, none for a byte of no character, and its bytes.
#[derive(Clone, Copy)]
pub struct Character<'a> {
    pub code: Option<u32>,
    pub bytes: &'a [u8],
}

impl Character<'_> {
    // Would a terminal not show it where it stands? Controls but the tab, and marks of direction.
    fn is_hidden(self) -> bool {
        match self.code {
            Some(code) => matches!(
                code,
                0..=8
                    | 10..=31
                    | 127..=159
                    | 0x200E..=0x200F
                    | 0x2028..=0x202E
                    | 0x2066..=0x2069
            ),
            None => true,
        }
    }

    // What is shown of it: the replacement character where it is hidden, and for a byte of none.
    fn shown(self) -> char {
        match self.code {
            Some(code) if !self.is_hidden() => {
                char::from_u32(code).unwrap_or(char::REPLACEMENT_CHARACTER)
            }
            _ => char::REPLACEMENT_CHARACTER,
        }
    }
}

// The characters from a place on, in their order; a byte of none stands by itself.
#[derive(Clone, Copy)]
pub struct Characters<'a> {
    rest: &'a [u8],
}

impl<'a> Iterator for Characters<'a> {
    type Item = Character<'a>;

    ghost remaining = { λ s. at_most (length s.rest.now) };

    fn next(&mut self) -> Option<Character<'a>> {
        let (code, size) = match text::utf8::decode(self.rest, 0) {
            Decoded::Char { code, next } => (Some(code), next),
            Decoded::Bad => (None, 1),
            Decoded::End => return None,
        };
        let (bytes, rest) = self.rest.split_at_checked(size)?;
        self.rest = rest;
        Some(Character { code, bytes })
    }
}

pub fn of(w: &[u8]) -> Characters<'_> {
    Characters { rest: w }
}

// The first so many characters, and what stands behind them.
pub fn split(w: &[u8], count: usize) -> (&[u8], &[u8]) {
    let mut all = of(w);
    for _ in 0..count {
        if all.next().is_none() {
            return (w, b"");
        }
    }
    (
        text::part::part(w, 0, w.len().saturating_sub(all.rest.len())),
        all.rest,
    )
}

// Is every character shown as it is?
pub fn are_shown(w: &[u8]) -> bool {
    of(w).all(|c| !c.is_hidden())
}

// A text, safe for a terminal.
#[derive(Clone, Copy)]
pub struct Shown<'a>(pub &'a [u8]);

impl fmt::Display for Shown<'_> {
    fn fmt<W: fmt::Write>(&self, f: &mut fmt::Formatter<W>) -> fmt::Result {
        for c in of(self.0) {
            f.write_char(c.shown())?;
        }
        Ok(())
    }
}

// A blank for each character of a text: a tab for a tab, and else a space.
#[derive(Clone, Copy)]
pub struct Blanks<'a>(pub &'a [u8]);

impl fmt::Display for Blanks<'_> {
    fn fmt<W: fmt::Write>(&self, f: &mut fmt::Formatter<W>) -> fmt::Result {
        for c in of(self.0) {
            f.write_char(if c.code == Some(9) { '\t' } else { ' ' })?;
        }
        Ok(())
    }
}

// The first 60 characters of a text, with a mark where there are more.
#[derive(Clone, Copy)]
pub struct Cut<'a>(pub &'a [u8]);

impl fmt::Display for Cut<'_> {
    fn fmt<W: fmt::Write>(&self, f: &mut fmt::Formatter<W>) -> fmt::Result {
        let (front, rest) = split(self.0, MOST_SHOWN);
        let more = if rest.is_empty() { "" } else { ELLIPSIS };
        write!(f, "{}{more}", Shown(front))
    }
}

// A text between quotes.
#[derive(Clone, Copy)]
pub struct Quoted<'a>(pub &'a [u8]);

impl fmt::Display for Quoted<'_> {
    fn fmt<W: fmt::Write>(&self, f: &mut fmt::Formatter<W>) -> fmt::Result {
        write!(f, "\"{}\"", Cut(self.0))
    }
}

// A word between backquotes.
#[derive(Clone, Copy)]
pub struct Backquoted<'a>(pub &'a [u8]);

impl fmt::Display for Backquoted<'_> {
    fn fmt<W: fmt::Write>(&self, f: &mut fmt::Formatter<W>) -> fmt::Result {
        write!(f, "`{}`", Cut(self.0))
    }
}
