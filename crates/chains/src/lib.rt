// Document 02, §13: every chain of one to four conditions of at most fifteen tokens over the vocabulary, one after the other (specs/Listed.antt).
#![tactic(auto)]

mod place;

ghost use Rattle.std.specs.Prelude.{◌≡◌, ◌≤◌, ltb, length};
ghost use Rattle.text.specs.Choice.{pick};
ghost use Rattle.chains.specs.Vocabulary.{piece_count};
ghost use Rattle.chains.specs.Listed.{most_pieces, chain, refused, Answered};
ghost use Rattle.chains.specs.Way.{reached, least, last_raised, piece_at, built, longer, following, is_start, next_of};
ghost use Rattle.chains.specs.declared.place.Place.TheVariants.{Start};

use crate::place::Place;

// The longest chain.
pub const MOST_PIECES: usize = 15;

// A sequence of `count` pieces, those past the count 0; no pieces if none follows; or a refusal's number. An array with a count beside it:
// nothing is put on the heap.
#[derive(Clone, Copy)]
pub struct Chain {
    pub number: u32,
    pub count: usize,
    pub pieces: [u8; MOST_PIECES],
}

// The place behind a sequence.
fn reached(v: &[u8]) -> Place
    ensures { result ≡ reached Start v.now }
{
    let mut place = Place::Start;
    for piece in v {
        place = place::step(place, *piece);
    }
    place
}

// The least piece from `low` on behind which `left` pieces may follow up to the end of a chain; place::PIECE_COUNT if there is none.
fn least(place: Place, low: u32, left: usize) -> u8
    ensures { result ≡ least place low left }
{
    for q in low..u32::from(place::PIECE_COUNT) {
        if place::may_end(place::step(place, q as u8), left) {
            return q as u8;
        }
    }
    place::PIECE_COUNT
}

// The index of the last piece that can be raised; the length if there is none.
fn last_raised(v: &[u8]) -> usize
    ensures { result ≡ last_raised Start v.now 0 (length v.now) }
{
    let mut place = Place::Start;
    let mut best = v.len();
    for (i, piece) in v.iter().enumerate() {
        if least(place, u32::from(*piece) + 1, v.len() - i - 1) < place::PIECE_COUNT {
            best = i;
        }
        place = place::step(place, *piece);
    }
    best
}

// The piece at the index i of a new sequence, with `left` pieces behind it: that of v before the index p, there the least from `low` on, behind it the least.
#[tactic(auto, unfolding(crate::specs::Way::piece_at))]
fn piece_at(v: &[u8], p: usize, low: u32, i: usize, place: Place, left: usize) -> u8
    requires { p ≤ length v.now }
    ensures { result ≡ piece_at v.now p low i place left }
{
    if i < p {
        return v[i];
    }
    if i == p {
        return least(place, low, left);
    }
    least(place, 0, left)
}

// A sequence of `count` such pieces.
fn built(v: &[u8], p: usize, low: u32, count: usize) -> Chain
    requires { (p ≤ length v.now) × (count ≤ most_pieces) }
    ensures { result ≡ chain (built v.now p low 0 Start count) }
{
    let mut pieces = [0u8; MOST_PIECES];
    let mut place = Place::Start;
    for i in 0..count {
        let q = piece_at(v, p, low, i, place, count - i - 1);
        pieces[i] = q;
        place = place::step(place, q);
    }
    Chain {
        number: 0,
        count,
        pieces,
    }
}

// The first of the shortest sequences from a number of pieces on.
fn longer(v: &[u8], from: usize) -> Chain
    ensures { result ≡ chain (longer v.now from) }
{
    for n in from..=MOST_PIECES {
        if place::may_end(Place::Start, n) {
            return built(v, 0, 0, n);
        }
    }
    Chain {
        number: 0,
        count: 0,
        pieces: [0u8; MOST_PIECES],
    }
}

// The next one behind a sequence of the list, or behind no pieces.
#[tactic(auto, using(crate::proofs::WayLaws::next_raised, crate::proofs::WayLaws::next_longer))]
fn following(v: &[u8]) -> Chain
    requires { length v.now ≤ most_pieces }
    ensures { result ≡ chain (following v.now) }
{
    let p = last_raised(v);
    if p < v.len() {
        return built(v, p, u32::from(v[p]) + 1, v.len());
    }
    longer(v, v.len() + 1)
}

// No pieces, or a sequence of the list.
#[tactic(auto, using(crate::proofs::WayLaws::start_by), unfolding(crate::specs::Way::is_start))]
fn is_start(v: &[u8]) -> bool
    ensures { result ≡ is_start v.now }
{
    if v.is_empty() {
        return true;
    }
    if MOST_PIECES < v.len() {
        return false;
    }
    place::may_end(reached(v), 0)
}

// Document 02: "It refuses a start that has tokens and is not itself in the list with 67".
const NOT_LISTED: u32 = 67;

#[tactic(auto, unfolding(crate::specs::Listed::refused))]
fn refused() -> Chain
    ensures { result ≡ refused }
{
    Chain {
        number: NOT_LISTED,
        count: 0,
        pieces: [0u8; MOST_PIECES],
    }
}

// "Given no tokens, the generator yields the first; given one listed, the next, or that none follows."
#[tactic(auto, using(crate::proofs::NextLaws::start_short, crate::proofs::NextLaws::answered_by), unfolding(crate::specs::Way::next_of))]
pub fn next(v: &[u8]) -> Chain
    ensures chain { result ≡ next_of v.now }
    ensures listed { Answered v.now result }
{
    if is_start(v) {
        return following(v);
    }
    refused()
}
