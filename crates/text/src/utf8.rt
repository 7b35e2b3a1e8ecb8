// One character of UTF-8 (RFC 3629) at an offset, and the row of them from the start. It stands for the Rust's Peekable<Chars>.
ghost use Rattle.std.specs.Prelude.{◌≡◌, get_or};
ghost use Rattle.text.specs.Utf8.{is_ascii, sequence_length, is_tail, is_second, two, three, four, decode_at, chars, row_end};
ghost use Rattle.text.specs.Block.{Row};
ghost use Rattle.text.specs.Rfc3629.{Stands};

use crate::block;

// What stands at an offset: a character and the offset past it, no character, or the end of the bytes. The rules of RFC 3629 and the
// program that shows texts tell the last two apart; an Option around a Result would say the same less plainly.
#[derive(Clone, Copy)]
pub enum Decoded {
    Char { code: u32, next: usize },
    Bad,
    End,
}

// The byte at an index; 0, which continues no sequence, past the end.
fn octet(s: &[u8], i: usize) -> u32
    ensures { result ≡ get_or s.now i 0 }
{
    s.get(i).map_or(0, |b| u32::from(*b))
}

// How many bytes the sequence has that starts with a byte, by that byte's leading ones; 0 if none starts with it.
#[tactic(auto, using(crate::proofs::Tests::steps, crate::proofs::Utf8Laws::ones))]
fn sequence_length(lead: u8) -> u32
    ensures { result ≡ sequence_length lead }
{
    match u8::leading_zeros(255 - lead) {
        0 => 1,
        ones @ 2..=4 => ones,
        _ => 0,
    }
}

// A byte that continues a sequence?
#[tactic(auto, using(crate::proofs::Tests::steps), unfolding(crate::specs::Utf8::is_tail))]
fn is_tail(b: u32) -> bool
    ensures { result ≡ is_tail b }
{
    matches!(b, 0x80..=0xBF)
}

// The second byte of a sequence that starts with lead? Not every tail is: see is_second.
#[tactic(auto, using(crate::proofs::Tests::steps), unfolding(crate::specs::Utf8::is_second))]
fn is_second(lead: u32, b: u32) -> bool
    ensures { result ≡ is_second lead b }
{
    match lead {
        0xE0 => matches!(b, 0xA0..=0xBF),
        0xED => matches!(b, 0x80..=0x9F),
        0xF0 => matches!(b, 0x90..=0xBF),
        0xF4 => matches!(b, 0x80..=0x8F),
        _ => is_tail(b),
    }
}

#[tactic(auto, using(crate::proofs::Tests::steps), unfolding(crate::specs::Utf8::two))]
fn two_octets(a: u32, b: u32, next: usize) -> Decoded
    ensures { result ≡ two a b next }
{
    if a < 0xC2 || !is_tail(b) {
        return Decoded::Bad;
    }
    Decoded::Char {
        code: a % 32 * 64 + b % 64,
        next,
    }
}

#[tactic(auto, using(crate::proofs::Tests::steps), unfolding(crate::specs::Utf8::three))]
fn three_octets(a: u32, b: u32, c: u32, next: usize) -> Decoded
    ensures { result ≡ three a b c next }
{
    if !is_second(a, b) || !is_tail(c) {
        return Decoded::Bad;
    }
    Decoded::Char {
        code: (a % 16 * 64 + b % 64) * 64 + c % 64,
        next,
    }
}

#[tactic(auto, using(crate::proofs::Tests::steps), unfolding(crate::specs::Utf8::four))]
fn four_octets(a: u32, b: u32, c: u32, d: u32, next: usize) -> Decoded
    ensures { result ≡ four a b c d next }
{
    if 0xF4 < a || !is_second(a, b) || !is_tail(c) || !is_tail(d) {
        return Decoded::Bad;
    }
    Decoded::Char {
        code: ((a % 8 * 64 + b % 64) * 64 + c % 64) * 64 + d % 64,
        next,
    }
}

// The character at an offset: exactly what RFC 3629's rules say stands there.
pub fn decode(s: &[u8], at: usize) -> Decoded
    ensures value { result ≡ decode_at s.now at }
    ensures rules { Stands s.now at result }
{
    if s.len() <= at {
        return Decoded::End;
    }
    let lead = s[at];
    let a = u32::from(lead);
    match sequence_length(lead) {
        1 => Decoded::Char {
            code: a,
            next: at + 1,
        },
        2 => two_octets(a, octet(s, at + 1), at + 2),
        3 => three_octets(a, octet(s, at + 1), octet(s, at + 2), at + 3),
        4 => four_octets(
            a,
            octet(s, at + 1),
            octet(s, at + 2),
            octet(s, at + 3),
            at + 4,
        ),
        _ => Decoded::Bad,
    }
}

// Behind blocks of eight bytes below 0x80 that stand in a row from an offset on.
fn ascii_blocks(s: &[u8], from: usize) -> usize
    ensures { Row is_ascii s.now from result }
{
    block::row(s, from, |b| b < 0x80)
}

// The offset behind the characters of s that stand in a row from its start. A byte below 0x80 is one by itself, and for speed read
// in place.
pub fn row_end(s: &[u8]) -> usize
    ensures { result ≡ row_end 0 (chars s.now 0) }
{
    let mut at = ascii_blocks(s, 0);
    while at < s.len() {
        if s[at] < 0x80 {
            at += 1;
        } else if let Decoded::Char { next, .. } = decode(s, at) {
            at = ascii_blocks(s, next);
        } else {
            return at;
        }
    }
    at
}
