// Converting the previous owners' rows, for C and Rust.
ghost use Rattle.std.specs.Prelude.{◌≡◌};
ghost use Rattle.flat.specs.Flat.{answer_words, flat};
ghost use Rattle.old_rows.specs.Back.{back_of};
ghost use Rattle.old_rows.specs.Convert.{rows_of};
ghost use Rattle.tergyosul.specs.Converting.{triggers_alone, condition_count};
ghost use Rattle.tergyosul.specs.Room.{no_room, by_room};
ghost use Rattle.tergyosul.specs.Writing.{write_answer_words, written_flat};

use writing::Written;

// Converts one to four rows to triggers with a name sheet, for a party, with its own primary adapter. The result is 0, or the number of the
// refusal; answer gets the whole answer, laid out as one of `tergyosul_read`. If it has no room for that, nothing is converted or written, and the
// result is NO_ROOM.
pub fn tergyosul_rows(rows: &[u8], sheet: &[u8], party: u8, primary: u8, answer: &mut [u32]) -> u32
    ensures number { result ≡ by_room answer_words answer.old no_room (rows_of party primary rows.now sheet.now).number }
    ensures answer { answer.new ≡ flat answer.old (rows_of party primary rows.now sheet.now) }
{
    if answer.len() < flat::ANSWER_WORDS {
        return crate::NO_ROOM;
    }
    let a = old_rows::convert::convert(rows, sheet, party, primary);
    flat::put_answer(answer, a);
    a.number
}

// Converts the list that the words of an answer have back to rows.
fn back(sheet: &[u8], party: u8, primary: u8, lists: &[u32], out: &mut [u8]) -> Written
    ensures value { result ≡ (back_of party primary sheet.now (triggers_alone lists.now) (condition_count lists.now) out.old).answer }
    ensures rows { out.new ≡ (back_of party primary sheet.now (triggers_alone lists.now) (condition_count lists.now) out.old).buffer }
{
    let l = crate::lists::triggers_alone(lists);
    let conditions = crate::lists::condition_count(lists);
    old_rows::restore::back(sheet, party, primary, l, conditions, out)
}

// Converts a list without conditions, whose words are laid out as an answer of `tergyosul_read`, `tergyosul_join` or `tergyosul_rows`, back to rows
// in out, for a party, with its own primary adapter. The result is 0, or the number of the refusal; answer gets it with its place and its
// detail, and how many bytes are written. If answer is shorter than WRITE_WORDS, nothing is written, and the result is NO_ROOM.
pub fn tergyosul_rows_back(
    sheet: &[u8],
    party: u8,
    primary: u8,
    lists: &[u32],
    out: &mut [u8],
    answer: &mut [u32],
) -> u32
    ensures number { result ≡ by_room write_answer_words answer.old no_room (back_of party primary sheet.now (triggers_alone lists.now) (condition_count lists.now) out.old).answer.number }
    ensures rows { out.new ≡ by_room write_answer_words answer.old out.old (back_of party primary sheet.now (triggers_alone lists.now) (condition_count lists.now) out.old).buffer }
    ensures answer { answer.new ≡ written_flat (back_of party primary sheet.now (triggers_alone lists.now) (condition_count lists.now) out.old).answer answer.old }
{
    if answer.len() < crate::written::WRITE_WORDS {
        return crate::NO_ROOM;
    }
    let w = back(sheet, party, primary, lists, out);
    crate::written::put_written(answer, w);
    w.number
}
