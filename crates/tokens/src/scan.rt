// Scans over the characters of a text, each with one loop, and what they share. They answer for any bytes and any place. A byte below 0x80 is a character
// by itself and is read in place; decoded reads the others. For speed a loop holds its place in parts.
ghost use Rattle.std.specs.Prelude.{◌≡◌, false, ltb, get_or, ◌*◌, ◌+◌, ◌-◌, ◌≤◌};
ghost use Rattle.text.specs.Choice.{pick};
ghost use Rattle.text.specs.Block.{Row};
ghost use Rattle.text.specs.Utf8.{chars};
ghost use Rattle.text.specs.Place.{counted};
ghost use Rattle.text.specs.Ascii.{is_alpha, is_word_part};
ghost use Rattle.tokens.specs.Scan.{passed, is_plain, trivia, quoted, digits};

use text::place::{Place, count_up, held};
use text::{ascii, block};

// The byte at an offset; 0x80, which begins no character, past the end. No byte from there on is in a class of ascii. text::utf8 has its
// own, with 0 past the end: each is one call of the library, and one function with a parameter would be no shorter.
fn octet(s: &[u8], at: usize) -> u32
    ensures { result ≡ get_or s.now at 0x80 }
{
    s.get(at).map_or(0x80, |b| u32::from(*b))
}

// So many more, up to the greatest number: a loop that counts the offset only has its column by one addition.
fn count_on(n: u32, more: usize) -> u32
    ensures { result ≡ counted (n + more) }
{
    n.saturating_add(held(more))
}

// Behind the letters, digits and _ that stand in a row. The loop counts the offset only.
pub fn word_end(s: &[u8], from: Place) -> Place
    ensures { result ≡ passed is_word_part from (chars s.now from.at) }
{
    let start = from.at;
    let line = from.line;
    let column = from.column;
    let mut at = start;
    loop {
        if !ascii::is_word_part(octet(s, at)) {
            return Place {
                at,
                line,
                column: count_on(column, at - start),
            };
        }
        at += 1;
    }
}

// Behind the letters that stand in a row.
pub fn letters_end(s: &[u8], from: Place) -> Place
    ensures { result ≡ passed is_alpha from (chars s.now from.at) }
{
    let line = from.line;
    let mut at = from.at;
    let mut column = from.column;
    loop {
        if !ascii::is_alpha(octet(s, at)) {
            return Place { at, line, column };
        }
        at += 1;
        column = count_up(column);
    }
}

// Is this byte a character by itself, and not LF?
#[tactic(auto, using(text::proofs::Tests::steps), unfolding(crate::specs::Scan::is_plain))]
fn is_plain(b: u32) -> bool
    ensures { result ≡ is_plain b }
{
    b != 0xA && b < 0x80
}

// Behind blocks of eight plain bytes that stand in a row from an offset on.
fn plain_blocks(s: &[u8], from: usize) -> usize
    ensures { Row is_plain s.now from result }
{
    block::row(s, from, |b| is_plain(u32::from(b)))
}

// In a comment, behind the plain bytes that stand in a row: the comment goes on from there. The loop counts the offset only.
fn plain_end(s: &[u8], from: Place) -> Place
    ensures { (trivia 1 result (chars s.now result.at) ≡ trivia 1 from (chars s.now from.at)) × (from.at ≤ result.at) }
{
    let start = from.at;
    let line = from.line;
    let column = from.column;
    let mut at = plain_blocks(s, start);
    loop {
        if !is_plain(octet(s, at)) {
            return Place {
                at,
                line,
                column: count_on(column, at - start),
            };
        }
        at += 1;
    }
}

// Where a comment ends whose # stands before a place: behind its LF, which is white space, or where no character begins.
fn comment_end(s: &[u8], from: Place) -> Place
    ensures { (trivia 0 result (chars s.now result.at) ≡ trivia 1 from (chars s.now from.at)) × (from.at ≤ result.at) }
{
    let mut p = from;
    loop {
        let q = plain_end(s, p);
        if octet(s, q.at) == 0xA {
            return q.after(0xA, q.at + 1);
        }
        match q.decoded(s) {
            Some((_, next)) => p = next,
            None => return q,
        }
    }
}

// Is this an ASCII character above #? None of these is white space or opens a comment, and most tokens begin with one.
#[tactic(auto, using(text::proofs::Tests::steps))]
fn is_token_start(b: u32) -> bool
    ensures { result ≡ pick (ltb b 0x24) false (ltb b 0x80) }
{
    matches!(b, 0x24..=0x7F)
}

// Behind white space and comments.
pub fn skip_trivia(s: &[u8], from: Place) -> Place
    ensures { result ≡ trivia 0 from (chars s.now from.at) }
{
    let mut at = from.at;
    let mut line = from.line;
    let mut column = from.column;
    loop {
        let b = octet(s, at);
        if is_token_start(b) {
            return Place { at, line, column };
        }
        if b == 0x20 {
            at += 1;
            column = count_up(column);
        } else if b == 0x23 {
            at += 1;
            column = count_up(column);
            let end = comment_end(s, Place { at, line, column });
            at = end.at;
            line = end.line;
            column = end.column;
        } else {
            match (Place { at, line, column }).bump(s) {
                Some((code, next)) => {
                    if !text::white::is_white(code) {
                        return Place { at, line, column };
                    }
                    at = next.at;
                    line = next.line;
                    column = next.column;
                }
                None => return Place { at, line, column },
            }
        }
    }
}

// How the string ends whose first character stands at a place: at the offset of its closing quote, with the place behind that, or not at
// all, at the offset of an LF or of the end.
pub fn string_end(s: &[u8], from: Place) -> Result<(usize, Place), usize>
    ensures { result ≡ quoted from (chars s.now from.at) }
{
    let mut at = from.at;
    let mut line = from.line;
    let mut column = from.column;
    loop {
        let b = octet(s, at);
        if b < 0x80 {
            if b == 0x22 {
                let next = Place {
                    at: at + 1,
                    line,
                    column: count_up(column),
                };
                break Ok((at, next));
            }
            if b == 0xA {
                break Err(at);
            }
            at += 1;
            column = count_up(column);
        } else {
            match (Place { at, line, column }).decoded(s) {
                Some((_, next)) => {
                    at = next.at;
                    line = next.line;
                    column = next.column;
                }
                None => break Err(at),
            }
        }
    }
}

// A digit's value; a caller has seen that it is one.
fn digit_value(code: u32) -> u64
    ensures { result ≡ code - 48 }
{
    u64::from(code.saturating_sub(48))
}

// The digits that stand in a row: the number that they write and the place behind them; none for more than 1,000,000,000.
pub fn digit_run(s: &[u8], from: Place) -> Option<(u32, Place)>
    ensures { result ≡ digits 0 from (chars s.now from.at) }
{
    let line = from.line;
    let mut at = from.at;
    let mut column = from.column;
    let mut value: u32 = 0;
    loop {
        let code = octet(s, at);
        if !ascii::is_digit(code) {
            return Some((value, Place { at, line, column }));
        }
        let more = u64::from(value) * 10 + digit_value(code);
        if 1000000000 < more {
            return None;
        }
        value = more as u32;
        at += 1;
        column = count_up(column);
    }
}
