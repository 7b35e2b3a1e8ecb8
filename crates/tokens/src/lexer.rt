// The lexer, ported from lexer.rs: the tokens of a text, or the first refusal among questions 1, 2, 4 and 10 to 19.
ghost use Rattle.std.specs.Prelude.{◌≡◌, ◌-◌, Ok, Err};
ghost use Rattle.text.specs.Utf8.{chars};
ghost use Rattle.text.specs.Place.{counted, start};
ghost use Rattle.tokens.specs.Scan.{quoted, digits};
ghost use Rattle.tokens.specs.Token.{look, single_kind, pair_kind, single, punct, string, digits_in, time_by, time, decimal, duration_by, duration, fraction_at, fraction, point, number_at, number, word, spanning, token_at};
ghost use Rattle.tokens.specs.Buffer.{Holds, lex_number, front_of};
ghost use Rattle.tokens.specs.Lexing.{record_of};
ghost use Rattle.tokens.specs.Lex.{refusal, lex_from, lex_text, answer_from, written_from, lex_answer, lex_words};

use crate::record::Record;
use crate::{duration, kind, record, scan};
use text::place::Place;
use text::{ascii, place};

// The most tokens and bytes that a text may have, and the fewest words that are lent: room for the most tokens.
pub const MOST_TOKENS: usize = 1024;

pub const MOST_BYTES: usize = 16384;

pub const LEAST_WORDS: usize = MOST_TOKENS * record::RECORD_SIZE;

// The refusal of a number that is too large.
const TOO_LARGE: u32 = 12;

// A token with its bytes from start to end and the place behind it.
#[derive(Clone, Copy)]
pub struct Lexeme {
    pub kind: u32,
    pub number: u32,
    pub start: usize,
    pub end: usize,
    pub next: Place,
}

// How the lexing of a text ends that is not refused: with the count of the tokens and the end's line and column.
#[derive(Clone, Copy)]
pub struct Lexed {
    pub count: usize,
    pub line: u32,
    pub column: u32,
}

// A refusal, with its line and column. It is a number, as the documents and the C interface give it, here and where a token is refused.
#[derive(Clone, Copy)]
pub struct Refusal {
    pub number: u32,
    pub line: u32,
    pub column: u32,
}

impl Refusal {
    fn at(number: u32, p: Place) -> Self
        ensures { Err result ≡ refusal number p.line p.column }
    {
        Refusal {
            number,
            line: p.line,
            column: p.column,
        }
    }
}

// The kind of a token of one character; where there is none 0, which is no token's, as past the last token of a text.
#[tactic(auto, using(crate::proofs::LexLaws::arms), unfolding(crate::specs::Token::single_kind))]
fn single_kind(code: u32) -> u32
    ensures { result ≡ single_kind code }
{
    match code {
        0x28 => kind::OPEN,
        0x29 => kind::CLOSE,
        0x7B => kind::OPEN_BRACE,
        0x7D => kind::CLOSE_BRACE,
        0x2C => kind::COMMA,
        0x2E => kind::POINT,
        0x3D => kind::ASSIGN,
        0x3E => kind::GT,
        0x3C => kind::LT,
        0x2B => kind::PLUS,
        0x2D => kind::MINUS,
        _ => 0,
    }
}

// The kind of a token of two characters; 0 where there is none.
#[tactic(auto, using(crate::proofs::LexLaws::arms), unfolding(crate::specs::Token::pair_kind))]
fn pair_kind(first: u32, second: u32) -> u32
    ensures { result ≡ pair_kind first second }
{
    match (first, second) {
        (0x2E, 0x2E) => kind::POINTS,
        (0x3D, 0x3D) => kind::EQ,
        (0x21, 0x3D) => kind::NE,
        (0x3E, 0x3D) => kind::GE,
        (0x3C, 0x3D) => kind::LE,
        _ => 0,
    }
}

// A token of a kind that spans two places.
fn span(kind: u32, number: u32, from: Place, end: Place) -> Lexeme
    ensures { Ok result ≡ spanning kind number from end }
{
    Lexeme {
        kind,
        number,
        start: from.at,
        end: end.at,
        next: end,
    }
}

#[tactic(auto, using(crate::proofs::LexLaws::arms), unfolding(crate::specs::Token::single))]
fn single_punct(code: u32, p: Place, next: Place) -> Result<Lexeme, u32>
    ensures { result ≡ single code p next }
{
    match single_kind(code) {
        0 => Err(10),
        kind => Ok(span(kind, 0, p, next)),
    }
}

#[tactic(auto, using(crate::proofs::LexLaws::arms), unfolding(crate::specs::Token::punct))]
fn punct_token(s: &[u8], code: u32, p: Place, next: Place) -> Result<Lexeme, u32>
    ensures { result ≡ punct code p next (look s.now next) }
{
    if let Some((second, end)) = next.bump(s) {
        let kind = pair_kind(code, second);
        if kind != 0 {
            return Ok(span(kind, 0, p, end));
        }
    }
    single_punct(code, p, next)
}

// The string whose first character stands at p, behind the quote.
#[tactic(auto, using(crate::proofs::LexLaws::arms), unfolding(crate::specs::Token::string))]
fn string_token(s: &[u8], p: Place) -> Result<Lexeme, u32>
    ensures { result ≡ string p (quoted p (chars s.now p.at)) }
{
    match scan::string_end(s, p) {
        Ok((end, next)) => Ok(Lexeme {
            kind: kind::STRING,
            number: 0,
            start: p.at,
            end,
            next,
        }),
        Err(_) => Err(11),
    }
}

// How many bytes stand between two offsets; 0 if the second is not behind the first.
fn distance(from: usize, end: usize) -> usize
    ensures { result ≡ end - from }
{
    end.saturating_sub(from)
}

// How many digits stand between two places: a digit is one byte.
fn digit_count(from: Place, end: Place) -> usize
    ensures { result ≡ digits_in from end }
{
    distance(from.at, end.at)
}

// A time whose hour's digits end at q; m is the place behind the colon.
#[tactic(auto, using(crate::proofs::LexLaws::arms), unfolding(crate::specs::Token::time))]
fn time_token(s: &[u8], p: Place, hour: u32, q: Place, m: Place) -> Result<Lexeme, u32>
    ensures { result ≡ time p hour q m (digits 0 m (chars s.now m.at)) }
{
    let (minute, end) = scan::digit_run(s, m).ok_or(TOO_LARGE)?;
    time_by(p, hour, digit_count(p, q), minute, digit_count(m, end), end)
}

// A time by its hour, its minute and how many digits each has.
#[tactic(auto, using(crate::proofs::LexLaws::arms), unfolding(crate::specs::Token::time_by))]
fn time_by(
    p: Place,
    hour: u32,
    hours: usize,
    minute: u32,
    minutes: usize,
    end: Place,
) -> Result<Lexeme, u32>
    ensures { result ≡ time_by p hour hours minute minutes end }
{
    if 2 < hours || minutes != 2 || 23 < hour || 59 < minute {
        return Err(13);
    }
    Ok(span(kind::TIME, hour * 60 + minute, p, end))
}

// A decimal with so many digits behind the point.
#[tactic(auto, using(crate::proofs::LexLaws::arms), unfolding(crate::specs::Token::decimal))]
fn decimal_token(p: Place, whole: u32, frac: u32, count: usize, end: Place) -> Result<Lexeme, u32>
    ensures { result ≡ decimal p whole frac count end }
{
    if 4 < count {
        return Err(15);
    }
    let value = u64::from(whole) * 10000 + u64::from(frac) * duration::power_of_ten(4 - count);
    match u32::try_from(value) {
        Ok(value) => Ok(span(kind::DECIMAL, value, p, end)),
        Err(_) => Err(TOO_LARGE),
    }
}

#[tactic(auto, using(crate::proofs::LexLaws::arms), unfolding(crate::specs::Token::duration_by, crate::specs::Token::amount_to))]
fn duration_by(
    p: Place,
    unit: u32,
    whole: u32,
    frac: u32,
    count: usize,
    end: Place,
) -> Result<Lexeme, u32>
    ensures { result ≡ duration_by p unit whole frac count end }
{
    if unit == 0 {
        return Err(16);
    }
    let ms = duration::duration_ms(whole, frac, count, unit)?;
    Ok(span(kind::DURATION, ms, p, end))
}

// A duration whose unit's letters begin at u.
#[tactic(auto, using(crate::proofs::LexLaws::arms), unfolding(crate::specs::Token::duration))]
fn duration_token(
    s: &[u8],
    p: Place,
    whole: u32,
    frac: u32,
    count: usize,
    u: Place,
) -> Result<Lexeme, u32>
    ensures { result ≡ duration s.now p whole frac count u }
{
    let end = scan::letters_end(s, u);
    let unit = duration::unit_ms(text::part::part(s, u.at, end.at));
    duration_by(p, unit, whole, frac, count, end)
}

// A decimal or a duration: the digits behind the point stand from f to end.
#[tactic(auto, using(crate::proofs::LexLaws::arms), unfolding(crate::specs::Token::fraction_at))]
fn fraction_by(
    s: &[u8],
    p: Place,
    whole: u32,
    frac: u32,
    f: Place,
    end: Place,
) -> Result<Lexeme, u32>
    ensures { result ≡ fraction_at s.now p whole frac f end (look s.now end) }
{
    let count = digit_count(f, end);
    match end.bump(s) {
        Some((code, _)) if ascii::is_alpha(code) => duration_token(s, p, whole, frac, count, end),
        _ => decimal_token(p, whole, frac, count, end),
    }
}

#[tactic(auto, using(crate::proofs::LexLaws::arms), unfolding(crate::specs::Token::fraction))]
fn fraction_token(s: &[u8], p: Place, whole: u32, f: Place) -> Result<Lexeme, u32>
    ensures { result ≡ fraction s.now p whole f (digits 0 f (chars s.now f.at)) }
{
    let (frac, end) = scan::digit_run(s, f).ok_or(TOO_LARGE)?;
    fraction_by(s, p, whole, frac, f, end)
}

// A number that ends at q before a point; f is the place behind the point, which joins only before a digit.
#[tactic(auto, using(crate::proofs::LexLaws::arms), unfolding(crate::specs::Token::point))]
fn point_token(s: &[u8], p: Place, whole: u32, q: Place, f: Place) -> Result<Lexeme, u32>
    ensures { result ≡ point s.now p whole q f (look s.now f) }
{
    match f.bump(s) {
        Some((code, _)) if ascii::is_digit(code) => fraction_token(s, p, whole, f),
        _ => Ok(span(kind::INTEGER, whole, p, q)),
    }
}

// The token whose first digits write value and end at q.
#[tactic(auto, using(crate::proofs::LexLaws::arms), unfolding(crate::specs::Token::number_at))]
fn number_by(s: &[u8], p: Place, value: u32, q: Place) -> Result<Lexeme, u32>
    ensures { result ≡ number_at s.now p value q (look s.now q) }
{
    match q.bump(s) {
        Some((0x3A, next)) => time_token(s, p, value, q, next),
        Some((0x2E, next)) => point_token(s, p, value, q, next),
        Some((code, _)) if ascii::is_alpha(code) => duration_token(s, p, value, 0, 0, q),
        _ => Ok(span(kind::INTEGER, value, p, q)),
    }
}

#[tactic(auto, using(crate::proofs::LexLaws::arms), unfolding(crate::specs::Token::number))]
fn number_token(s: &[u8], p: Place) -> Result<Lexeme, u32>
    ensures { result ≡ number s.now p (digits 0 p (chars s.now p.at)) }
{
    let (value, end) = scan::digit_run(s, p).ok_or(TOO_LARGE)?;
    number_by(s, p, value, end)
}

#[tactic(auto, using(crate::proofs::LexLaws::arms), unfolding(crate::specs::Token::word))]
fn word_token(s: &[u8], p: Place) -> Lexeme
    ensures { Ok result ≡ word s.now p }
{
    span(kind::WORD, 0, p, scan::word_end(s, p))
}

// The token that begins at p with the character code; next is the place behind that character.
#[tactic(auto, using(crate::proofs::LexLaws::arms), unfolding(crate::specs::Token::token_at))]
fn token_at(s: &[u8], p: Place, code: u32, next: Place) -> Result<Lexeme, u32>
    ensures { result ≡ token_at s.now p code next }
{
    if code == 0x22 {
        return string_token(s, next);
    }
    if ascii::is_digit(code) {
        return number_token(s, p);
    }
    if ascii::is_word_start(code) {
        return Ok(word_token(s, p));
    }
    punct_token(s, code, p, next)
}

// The record of a token that begins at p.
#[tactic(auto, unfolding(crate::specs::Lexing::record_of))]
fn record_of(t: Lexeme, p: Place) -> Record
    ensures { result ≡ record_of t.kind t.number t.start t.end p }
{
    Record {
        kind: t.kind,
        number: t.number,
        start: place::held(t.start),
        length: place::held(distance(t.start, t.end)),
        line: p.line,
        column: p.column,
    }
}

// Writes the records of the tokens of a text, at most 1,024, to words that have room for them.
fn lex_all(s: &[u8], words: &mut [u32]) -> Result<Lexed, Refusal>
    ensures { (result ≡ answer_from 0 (lex_text s.now)) × (words.new ≡ written_from 0 words.old (lex_text s.now)) }
{
    let mut p = Place::start();
    let mut count: usize = 0;
    loop {
        let q = scan::skip_trivia(s, p);
        let Some((code, next)) = q.bump(s) else {
            return Ok(Lexed {
                count,
                line: q.line,
                column: q.column,
            });
        };
        if count == MOST_TOKENS {
            return Err(Refusal::at(19, q));
        }
        match token_at(s, q, code, next) {
            Ok(lexeme) => {
                record::put(words, count, record_of(lexeme, q));
                count += 1;
                p = lexeme.next;
            }
            Err(number) => return Err(Refusal::at(number, q)),
        }
    }
}

// The tokens of a text, as records in the lent words. Refusals 1, 2 and 4 leave the words as they are, another one leaves the records
// before it; no other word changes.
pub fn lex(s: &[u8], words: &mut [u32]) -> Result<Lexed, Refusal>
    ensures value { (result ≡ lex_answer s.now words.old) × (words.new ≡ lex_words s.now words.old) }
    ensures buffer { Holds (front_of (lex_number result) s.now) words.old words.new }
{
    if MOST_BYTES < s.len() {
        return Err(Refusal {
            number: 1,
            line: 0,
            column: 0,
        });
    }
    if words.len() < LEAST_WORDS {
        return Err(Refusal {
            number: 2,
            line: 0,
            column: 0,
        });
    }
    match place::check_utf8(s) {
        Ok(()) => lex_all(s, words),
        Err(ill) => Err(Refusal {
            number: 4,
            line: ill.line,
            column: ill.column,
        }),
    }
}
