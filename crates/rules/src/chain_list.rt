// `rules chains`: every short chain of conditions, one a line (document 02, §13).
use tergyosul::chain::{CHAIN_WORDS, COUNT, FIRST_PIECE};
use wording::{out, split};

// The longest chain.
const MOST_PIECES: usize = CHAIN_WORDS - FIRST_PIECE;

// A proved loop has to end: it counts up to more than there are, which is 636.
const MORE_THAN_ALL: u32 = 1000;

// A piece is the place of its word in document 02's vocabulary.
fn piece(rt: &HostRuntime, k: u8) {
    out::bytes(
        rt,
        split::word(
            b"lamp sun time is in on off up down sunrise sunset level and 0 63 64 ( ) . .. == + -",
            usize::from(k),
        ),
    );
}

// The words of a chain, one space between.
fn line(rt: &HostRuntime, chain: &[u8]) {
    for (i, k) in chain.iter().enumerate() {
        if 0 < i {
            out::byte(rt, b' ');
        }
        piece(rt, *k);
    }
    out::line_end(rt);
}

// The chain of an answer as bytes, as the next call takes it; those past its count are 0.
fn chain_of(answer: &[u32; CHAIN_WORDS]) -> [u8; MOST_PIECES] {
    let mut chain = [0u8; MOST_PIECES];
    for (piece, word) in chain.iter_mut().zip(&answer[FIRST_PIECE..]) {
        *piece = (*word % 256) as u8;
    }
    chain
}

// How many pieces it has.
fn count_of(answer: &[u32; CHAIN_WORDS]) -> u32 {
    answer[COUNT]
}

// The whole list, from nothing on: each chain is behind that of the last answer.
pub fn run(rt: &HostRuntime) {
    let mut answer = [0u32; CHAIN_WORDS];
    for _ in 0..MORE_THAN_ALL {
        let last = chain_of(&answer);
        let count = count_of(&answer) as usize;
        tergyosul::chain::tergyosul_next_chain(text::part::part(&last, 0, count), &mut answer);
        let next = chain_of(&answer);
        let more = count_of(&answer) as usize;
        if more == 0 {
            return;
        }
        line(rt, text::part::part(&next, 0, more));
    }
}
