// Every short condition, one after the other (document 02, §13).
ghost use Rattle.std.specs.Prelude.{◌≡◌};
ghost use Rattle.chains.specs.Way.{next_of};
ghost use Rattle.tergyosul.specs.Chains.{chain_answer_words, chain_flat};
ghost use Rattle.tergyosul.specs.Room.{no_room, by_room};

use chains::{Chain, MOST_PIECES};

// Where the count of the pieces stands, behind number, line, column and detail.
pub const COUNT: usize = 4;

// Where the pieces begin.
pub const FIRST_PIECE: usize = COUNT + 1;

// The length of an answer.
pub const CHAIN_WORDS: usize = FIRST_PIECE + MOST_PIECES;

// Writes an answer. Where there is no room for all of it nothing is written.
fn put_chain(answer: &mut [u32], c: Chain)
    ensures { answer.new ≡ chain_flat c answer.old }
{
    if answer.len() < CHAIN_WORDS {
        return;
    }
    crate::put_four(answer, c.number, 0, 0, 0);
    answer[COUNT] = text::place::held(c.count);
    for i in 0..MOST_PIECES {
        answer[FIRST_PIECE + i] = u32::from(c.pieces[i]);
    }
}

// The next chain behind `pieces`, the first behind none; no pieces if none follows, and 67 for a start that is not in the list. The result is 0, or 67. If answer is
// shorter than CHAIN_WORDS, nothing is written, and the result is NO_ROOM.
pub fn tergyosul_next_chain(pieces: &[u8], answer: &mut [u32]) -> u32
    ensures number { result ≡ by_room chain_answer_words answer.old no_room (next_of pieces.now).number }
    ensures answer { answer.new ≡ chain_flat (next_of pieces.now) answer.old }
{
    if answer.len() < CHAIN_WORDS {
        return crate::NO_ROOM;
    }
    let c = chains::next(pieces);
    put_chain(answer, c);
    c.number
}
