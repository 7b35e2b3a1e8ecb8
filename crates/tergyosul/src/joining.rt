// Joining, for C and Rust.
ghost use Rattle.std.specs.Prelude.{◌≡◌};
ghost use Rattle.topics.specs.Topics.{lent_topics};
ghost use Rattle.join.specs.Join.{join_of};
ghost use Rattle.flat.specs.Flat.{answer_words};
ghost use Rattle.tergyosul.specs.Room.{no_room, by_room};
ghost use Rattle.tergyosul.specs.Joining.{conditions_from, flat_joined};

use join::Joined;

// Where in row 0 the text that is refused stands; those of the triggers and that of the conditions follow.
pub const WHICH: usize = 6;

// The text of the conditions: the first, if there are any.
#[tactic(auto, unfolding(crate::specs::Joining::conditions_from))]
fn conditions_from(j: Joined) -> u32
    ensures { result ≡ conditions_from j }
{
    if j.answer.conditions.count == 0 { 0 } else { 1 }
}

// Writes the answer. Where there is no room for all of it nothing is written.
fn put_joined(answer: &mut [u32], j: Joined)
    ensures { answer.new ≡ flat_joined answer.old j }
{
    if answer.len() < flat::ANSWER_WORDS {
        return;
    }
    flat::put_answer(answer, j.answer);
    answer[WHICH] = j.which;
    answer[WHICH + 1] = j.from[0];
    answer[WHICH + 2] = j.from[1];
    answer[WHICH + 3] = j.from[2];
    answer[WHICH + 4] = j.from[3];
    answer[WHICH + 5] = conditions_from(j);
}

// Reads two rule texts with one name sheet and the lent topics of earlier rules, for a party, with its own primary adapter, and joins them. The result is 0, or the number of the refusal; answer gets the
// whole answer, with the text that is refused and the text of each entry in row 0. If it has no room for that, nothing is read or written, and the result is NO_ROOM. The words are lent for the records of the first text's tokens, the others for those of the second's: at least
// 5,120 each.
pub fn tergyosul_join(
    first: &[u8],
    second: &[u8],
    sheet: &[u8],
    lent: &[u8],
    party: u8,
    primary: u8,
    words: &mut [u32],
    others: &mut [u32],
    answer: &mut [u32],
) -> u32
    ensures number { result ≡ by_room answer_words answer.old no_room (join_of party primary first.now second.now sheet.now (lent_topics lent.now) words.old others.old).joined.answer.number }
    ensures first { words.new ≡ by_room answer_words answer.old words.old (join_of party primary first.now second.now sheet.now (lent_topics lent.now) words.old others.old).first_buffer }
    ensures second { others.new ≡ by_room answer_words answer.old others.old (join_of party primary first.now second.now sheet.now (lent_topics lent.now) words.old others.old).second_buffer }
    ensures answer { answer.new ≡ flat_joined answer.old (join_of party primary first.now second.now sheet.now (lent_topics lent.now) words.old others.old).joined }
{
    if answer.len() < flat::ANSWER_WORDS {
        return crate::NO_ROOM;
    }
    let j = join::join(first, second, sheet, lent, party, primary, words, others);
    put_joined(answer, j);
    j.answer.number
}
