// What stands at the place of a refusal.
use crate::characters::{Backquoted, Cut, Quoted};
use crate::fault::Fault;
use crate::lexed::Lexed;
use crate::{characters, out};
use std::fmt;
use tokens::kind;

// The word for a kind of token.
fn kind_word(kind: u32) -> &'static str {
    match kind {
        0 => "",
        kind::WORD => "word",
        kind::STRING => "text",
        kind::INTEGER => "number",
        kind::TIME => "time",
        kind::DURATION => "duration",
        kind::DECIMAL => "decimal",
        _ => "sign",
    }
}

// A token behind the word for its kind, as it is written: a text between quotes, a word or a sign between backquotes, a number bare.
#[derive(Clone, Copy)]
pub struct Token<'a> {
    kind: u32,
    bytes: &'a [u8],
}

impl<'a> Token<'a> {
    pub fn of(lexed: Lexed<'a>, i: usize) -> Self {
        Token {
            kind: lexed.kind(i),
            bytes: lexed.bytes(i),
        }
    }
}

impl fmt::Display for Token<'_> {
    fn fmt<W: fmt::Write>(&self, f: &mut fmt::Formatter<W>) -> fmt::Result {
        let word = kind_word(self.kind);
        match self.kind {
            kind::STRING => write!(f, "{word} {}", Quoted(self.bytes)),
            0 | kind::INTEGER..=kind::DECIMAL => write!(f, "{word} {}", Cut(self.bytes)),
            _ => write!(f, "{word} {}", Backquoted(self.bytes)),
        }
    }
}

// Does a byte belong to what was meant as a number? A point does before a digit.
fn is_in_number(b: u8, next: u8) -> bool {
    b.is_ascii_alphanumeric() || b == b':' || b == b'.' && next.is_ascii_digit()
}

// What was meant as a number, from its front on.
fn number(w: &[u8]) -> &[u8] {
    let next = w.iter().skip(1).chain(&[0u8]);
    let size = w
        .iter()
        .zip(next)
        .take_while(|(b, next)| is_in_number(**b, **next))
        .count();
    text::part::part(w, 0, size)
}

// The character at the front, with its code if it is none of ASCII's that are shown: it may be one that cannot be seen.
#[derive(Clone, Copy)]
pub struct Character<'a>(pub &'a [u8]);

impl fmt::Display for Character<'_> {
    fn fmt<W: fmt::Write>(&self, f: &mut fmt::Formatter<W>) -> fmt::Result {
        let (front, _) = characters::split(self.0, 1);
        let written = Backquoted(front);
        match characters::of(self.0).next().and_then(|c| c.code) {
            None | Some(33..=126) => write!(f, "the character {written}"),
            Some(code) => write!(f, "the character {written} (U+{code:04x})"),
        }
    }
}

// Before the text was cut into tokens: a byte, a character or a number, which stand at the front.
fn uncut(rt: &impl Print, refusal: u32, w: &[u8]) {
    match refusal {
        4 => {
            let byte = w.first().copied().unwrap_or(0);
            out::text(
                rt,
                format_args!("the byte {byte:02x} (hex) begins no character"),
            );
        }
        10 => out::text(rt, format_args!("{} stands here", Character(w))),
        11 => out::text(rt, "the quote opens here"),
        19 => out::text(rt, "the token after the 1,024th begins here"),
        _ => out::text(rt, format_args!("{} stands here", Cut(number(w)))),
    }
}

// The token with an index, or the end of the text.
pub fn at(rt: &impl Print, lexed: Lexed<'_>, i: usize) {
    if i < lexed.count {
        out::text(rt, format_args!("the {} stands here", Token::of(lexed, i)));
        return;
    }
    out::text(rt, "the text ends here");
}

pub fn show(rt: &impl Print, f: Fault<'_>) {
    if f.number < 20 {
        let text = f.lexed.text;
        uncut(rt, f.number, text::part::part(text, f.at, text.len()));
        return;
    }
    at(rt, f.lexed, f.token);
}
