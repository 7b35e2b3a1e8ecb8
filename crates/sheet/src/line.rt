// One line of the name sheet. What a line means is said in one definition, line_of, and read by one function, line_of.
ghost use Rattle.std.specs.Prelude.{◌≡◌, not, ℕ, ◌+◌, false, length, leb, Some, None, MatchOption};
ghost use Rattle.text.specs.Block.{block};
ghost use Rattle.text.specs.Choice.{pick};
ghost use Rattle.text.specs.Find.{index_of};
ghost use Rattle.model.specs.Limits.{last_adapter};
ghost use Rattle.sheet.specs.Line.{without_return, has_comma, rest, Parted, numeral, is_mark, plain, is_name, digits_on, checked_row, read_row, party_by, party_of, line_by, bare_line, bare_name, line_of, name_of};

use crate::kind;
use model::limits;

// What a line says: the primary adapter, a listed adapter, whose an adapter is, or a row of a kind with its adapter and number.
#[derive(Clone, Copy)]
pub enum Line {
    Primary(u32),
    Adapter(u32),
    Party {
        adapter: u32,
        party: u32,
    },
    Row {
        kind: u32,
        adapter: u32,
        number: u32,
    },
}

// A line without the CR that belongs to its end: one, if one is there.
pub fn without_return(l: &[u8]) -> &[u8]
    ensures { result.now ≡ without_return l.now }
{
    match l {
        [front @ .., b'\r'] => front,
        _ => l,
    }
}

// The index of the first comma; the length where there is none.
pub fn comma(l: &[u8]) -> usize
    ensures { result ≡ index_of 0x2C l.now }
{
    text::find::find(l, 0, b',')
}

// A line's first field, and what stands behind its comma, if it has one.
pub fn parted(l: &[u8]) -> Option<(&[u8], &[u8])>
    ensures { MatchOption result (has_comma l.now ≡ false) (λ p. Parted l.now p.0.now p.1.now) }
{
    let at = comma(l);
    if at < l.len() {
        Some((&l[..at], &l[at + 1..]))
    } else {
        None
    }
}

// What stands behind the first comma.
pub fn behind_comma(l: &[u8]) -> &[u8]
    ensures { result.now ≡ rest l.now }
{
    match parted(l) {
        Some((_, behind)) => behind,
        None => &l[..0],
    }
}

// The number that digits write, up to 999 and with no leading zero, if the bytes are one.
pub fn decimal(l: &[u8]) -> Option<u32>
    ensures { result ≡ numeral l.now }
{
    match l {
        [] => None,
        [b'0'] => Some(0),
        [b'0', ..] => None,
        _ => digits_from(l),
    }
}

fn digits_from(l: &[u8]) -> Option<u32>
    ensures { result ≡ digits_on 0 l.now }
{
    let mut value = 0;
    for &c in l {
        if !text::ascii::is_digit(u32::from(c)) {
            return None;
        }
        value = value * 10 + u32::from(c - b'0');
        if 999 < value {
            return None;
        }
    }
    Some(value)
}

// A name that a sheet may have: 1 to 48 bytes, without quote or CR.
#[tactic(auto, unfolding(crate::specs::Line::is_name))]
pub fn is_name(l: &[u8]) -> bool
    ensures { result ≡ is_name l.now }
{
    !l.is_empty() && l.len() <= limits::MAX_NAME_BYTES && is_plain(l)
}

// A quote or a CR? Most bytes are above both, and so told by one test.
#[tactic(auto, unfolding(crate::specs::Line::is_mark))]
fn is_mark(c: u8) -> bool
    ensures { result ≡ is_mark c }
{
    c <= b'"' && matches!(c, b'"' | b'\r')
}

// Are there eight bytes at an offset, with no quote and no CR among them? As in text::block, all are tested at once.
fn eight_unmarked(l: &[u8], at: usize) -> bool
    ensures { result ≡ block (λ (c : ℕ). not (is_mark c)) l.now at }
{
    let len = l.len();
    if len < 8 || len - 8 < at {
        return false;
    }
    !(((l[at] == b'"') | (l[at] == b'\r'))
        | ((l[at + 1] == b'"') | (l[at + 1] == b'\r'))
        | ((l[at + 2] == b'"') | (l[at + 2] == b'\r'))
        | ((l[at + 3] == b'"') | (l[at + 3] == b'\r'))
        | ((l[at + 4] == b'"') | (l[at + 4] == b'\r'))
        | ((l[at + 5] == b'"') | (l[at + 5] == b'\r'))
        | ((l[at + 6] == b'"') | (l[at + 6] == b'\r'))
        | ((l[at + 7] == b'"') | (l[at + 7] == b'\r')))
}

// No quote and no CR, asked byte by byte?
fn each_plain(l: &[u8]) -> bool
    ensures { result ≡ plain l.now }
{
    for &c in l {
        if is_mark(c) {
            return false;
        }
    }
    true
}

// No quote and no CR, asked of eight bytes at a time, for speed? The last eight begin at an offset, and some of them may have been tested before.
fn blocks_plain(l: &[u8], last: usize) -> bool
    requires { length l.now ≡ last + 8 }
    ensures { result ≡ plain l.now }
{
    let mut at: usize = 0;
    while at < last {
        if eight_unmarked(l, at) {
            at = at + 8;
        } else {
            return false;
        }
    }
    eight_unmarked(l, last)
}

// No quote and no CR?
fn is_plain(l: &[u8]) -> bool
    ensures { result ≡ plain l.now }
{
    let len = l.len();
    if len < 8 {
        return each_plain(l);
    }
    blocks_plain(l, len - 8)
}

// What a line says of an adapter, if there is such an adapter.
fn if_adapter(a: u32, said: Line) -> Option<Line>
    ensures { result ≡ pick (leb a last_adapter) (Some said) None }
{
    if a <= limits::MAX_ADAPTER {
        Some(said)
    } else {
        None
    }
}

#[tactic(auto, unfolding(crate::specs::Line::checked_row))]
fn checked_row(kind: u32, adapter: u32, number: u32, name: &[u8]) -> Option<Line>
    ensures { result ≡ checked_row kind adapter number name.now }
{
    if adapter <= limits::MAX_ADAPTER && number <= kind::most_of(kind) && is_name(name) {
        Some(Line::Row {
            kind,
            adapter,
            number,
        })
    } else {
        None
    }
}

// A row of a kind, from behind the kind's comma.
#[tactic(auto, unfolding(crate::specs::Line::read_row))]
fn read_row(kind: u32, l: &[u8]) -> Option<Line>
    ensures { result ≡ read_row kind l.now }
{
    let (adapter, more) = parted(l)?;
    let (number, name) = parted(more)?;
    checked_row(kind, decimal(adapter)?, decimal(number)?, name)
}

#[tactic(auto, unfolding(crate::specs::Line::line_by, crate::specs::Line::primary_of, crate::specs::Line::adapter_of))]
fn line_by(w: &[u8], l: &[u8]) -> Option<Line>
    ensures { result ≡ line_by w.now l.now }
{
    if text::part::same(w, b"primary") {
        let a = decimal(l)?;
        if_adapter(a, Line::Primary(a))
    } else if text::part::same(w, b"adapter") {
        let a = decimal(l)?;
        if_adapter(a, Line::Adapter(a))
    } else if text::part::same(w, b"party") {
        party_of(l)
    } else {
        read_row(kind::kind_of(w)?, l)
    }
}

#[tactic(auto, unfolding(crate::specs::Line::party_by))]
fn party_by(adapter: u32, party: u32) -> Option<Line>
    ensures { result ≡ party_by adapter party }
{
    if adapter <= limits::MAX_ADAPTER && party <= limits::MAX_PARTY {
        Some(Line::Party { adapter, party })
    } else {
        None
    }
}

// Whose an adapter is, from behind the comma of `party`.
#[tactic(auto, unfolding(crate::specs::Line::party_of))]
fn party_of(l: &[u8]) -> Option<Line>
    ensures { result ≡ party_of l.now }
{
    let (adapter, party) = parted(l)?;
    party_by(decimal(adapter)?, decimal(party)?)
}

// What a line says that is without its CR.
#[tactic(auto, unfolding(crate::specs::Line::bare_line))]
fn bare_line(l: &[u8]) -> Option<Line>
    ensures { result ≡ bare_line l.now }
{
    let (word, more) = parted(l)?;
    line_by(word, more)
}

// The name in a row's line that is without its CR.
#[tactic(auto, unfolding(crate::specs::Line::bare_name))]
fn bare_name(l: &[u8]) -> &[u8]
    ensures { result.now ≡ bare_name l.now }
{
    behind_comma(behind_comma(behind_comma(l)))
}

// What a line says, if it says something that a sheet may say.
#[tactic(auto, unfolding(crate::specs::Line::line_of))]
pub fn line_of(l: &[u8]) -> Option<Line>
    ensures { result ≡ line_of l.now }
{
    bare_line(without_return(l))
}

// The name in a row's line.
#[tactic(auto, unfolding(crate::specs::Line::name_of))]
pub fn name_of(l: &[u8]) -> &[u8]
    ensures { result.now ≡ name_of l.now }
{
    bare_name(without_return(l))
}
