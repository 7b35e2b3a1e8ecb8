// Writing out, for C and Rust.
ghost use Rattle.std.specs.Prelude.{◌≡◌};
ghost use Rattle.writing.specs.Writing.{write_of};
ghost use Rattle.tergyosul.specs.Room.{no_room, by_room};
ghost use Rattle.tergyosul.specs.Writing.{lists_in, write_answer_words, written_flat};

use writing::Written;

// The length of an answer: number, line, column, detail, and how many bytes are written.
pub const WRITE_WORDS: usize = 5;

// Writes an answer. Where there is no room for all of it nothing is written.
#[tactic(auto, using(crate::proofs::WritingLaws::unwritten, crate::proofs::WritingLaws::five_written))]
pub fn put_written(answer: &mut [u32], w: Written)
    ensures { answer.new ≡ written_flat w answer.old }
{
    if answer.len() < WRITE_WORDS {
        return;
    }
    crate::put_four(answer, w.number, w.line, w.column, w.detail);
    answer[4] = w.length;
}

// Writes the two lists, whose words are laid out as an answer of `tergyosul_read` or `tergyosul_join`, as a rule text to out, for a party, with
// its own primary adapter. The names of each entry stand in the text that row 0 says, the first where it says none. The result is 0, or the
// number of the refusal; answer gets it with its place and its detail, and how many bytes are written. If answer is shorter than WRITE_WORDS,
// nothing is written, and the result is NO_ROOM.
pub fn tergyosul_write(
    first: &[u8],
    second: &[u8],
    sheet: &[u8],
    party: u8,
    primary: u8,
    lists: &[u32],
    out: &mut [u8],
    answer: &mut [u32],
) -> u32
    ensures number { result ≡ by_room write_answer_words answer.old no_room (write_of party primary first.now second.now sheet.now (lists_in lists.now) out.old).answer.number }
    ensures text { out.new ≡ by_room write_answer_words answer.old out.old (write_of party primary first.now second.now sheet.now (lists_in lists.now) out.old).buffer }
    ensures answer { answer.new ≡ written_flat (write_of party primary first.now second.now sheet.now (lists_in lists.now) out.old).answer answer.old }
{
    if answer.len() < WRITE_WORDS {
        return crate::NO_ROOM;
    }
    let l = crate::lists::lists_in(lists);
    let w = writer::write(first, second, sheet, party, primary, l, out);
    put_written(answer, w);
    w.number
}
