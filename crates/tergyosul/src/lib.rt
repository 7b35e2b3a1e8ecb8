// The calls that C and Rust are given: numbers and slices only. The crate `tergyosul_c` exports each under its own name; a slice is a pointer and a length there.
#![tactic(auto)]

pub mod chain;
pub mod converting;
pub mod joining;
pub mod lists;
pub mod written;

ghost use Rattle.std.specs.Prelude.{◌≡◌};
ghost use Rattle.tokens.specs.Lex.{lex_answer, lex_words};
ghost use Rattle.tokens.specs.Buffer.{lex_number};
ghost use Rattle.sheet.specs.Sheet.{lines, primary_line};
ghost use Rattle.topics.specs.Topics.{lent_topics};
ghost use Rattle.language.specs.Read.{read_of, rule_call, archive_call, shop_call};
ghost use Rattle.tergyosul.specs.Lexing.{four_first, lex_flat};
ghost use Rattle.tergyosul.specs.Room.{no_room, lex_answer_words, by_room};
ghost use Rattle.flat.specs.Flat.{answer_words, flat};

use sheet::{Call, Habit};

// The result of a call that has no room for its answer. It is no refusal's number.
const NO_ROOM: u32 = 4294967295;

// The length of an answer of `tergyosul_lex`: number, line, column, count.
const LEX_WORDS: usize = 4;

// Writes four words at the front; none where there is no room.
fn put_four(words: &mut [u32], a: u32, b: u32, c: u32, d: u32)
    ensures { words.new ≡ four_first words.old a b c d }
{
    if words.len() < LEX_WORDS {
        return;
    }
    words[0] = a;
    words[1] = b;
    words[2] = c;
    words[3] = d;
}

// Lexes a text: questions 1, 2 and 4, then 10 to 19. The records of its tokens go to words. The result is 0, or the number of the
// refusal; answer gets number, line, column and the count of the tokens. If answer has fewer than these four words, nothing is lexed or
// written, and the result is NO_ROOM.
pub fn tergyosul_lex(text: &[u8], words: &mut [u32], answer: &mut [u32]) -> u32
    ensures number { result ≡ by_room lex_answer_words answer.old no_room (lex_number (lex_answer text.now words.old)) }
    ensures words { words.new ≡ by_room lex_answer_words answer.old words.old (lex_words text.now words.old) }
    ensures answer { answer.new ≡ lex_flat (lex_answer text.now words.old) answer.old }
{
    if answer.len() < LEX_WORDS {
        return NO_ROOM;
    }
    match tokens::lexer::lex(text, words) {
        Ok(lexed) => {
            put_four(
                answer,
                0,
                lexed.line,
                lexed.column,
                text::place::held(lexed.count),
            );
            0
        }
        Err(refusal) => {
            put_four(answer, refusal.number, refusal.line, refusal.column, 0);
            refusal.number
        }
    }
}

// The call of any habit.
fn read_by(
    call: Call,
    text: &[u8],
    sheet: &[u8],
    lent: &[u8],
    words: &mut [u32],
    answer: &mut [u32],
) -> u32
    ensures number { result ≡ by_room answer_words answer.old no_room (read_of call text.now sheet.now (lent_topics lent.now) words.old).answer.number }
    ensures words { words.new ≡ by_room answer_words answer.old words.old (read_of call text.now sheet.now (lent_topics lent.now) words.old).buffer }
    ensures answer { answer.new ≡ flat answer.old (read_of call text.now sheet.now (lent_topics lent.now) words.old).answer }
{
    if answer.len() < flat::ANSWER_WORDS {
        return NO_ROOM;
    }
    let a = reader::read::read_by(call, text, sheet, lent, words);
    flat::put_answer(answer, a);
    a.number
}

// Reads a rule text with a name sheet and the lent topics of earlier rules, for a party, with its own primary adapter. The result is 0, or the number of the refusal; answer gets the
// whole answer. If it has no room for that, nothing is read or written, and the result is NO_ROOM. The words are lent for the records of the
// tokens: at least 5,120. A repeated argument of `input(` is refused.
#[tactic(auto, unfolding(language::specs::Read::rule_call))]
pub fn tergyosul_read(
    text: &[u8],
    sheet: &[u8],
    lent: &[u8],
    party: u8,
    primary: u8,
    words: &mut [u32],
    answer: &mut [u32],
) -> u32
    ensures number { result ≡ by_room answer_words answer.old no_room (read_of (rule_call party primary) text.now sheet.now (lent_topics lent.now) words.old).answer.number }
    ensures words { words.new ≡ by_room answer_words answer.old words.old (read_of (rule_call party primary) text.now sheet.now (lent_topics lent.now) words.old).buffer }
    ensures answer { answer.new ≡ flat answer.old (read_of (rule_call party primary) text.now sheet.now (lent_topics lent.now) words.old).answer }
{
    read_by(
        Call {
            habit: Habit::Rule,
            party,
            primary,
        },
        text,
        sheet,
        lent,
        words,
        answer,
    )
}

// The archive loader's call: the same, but that a repeated argument of `input(` replaces the earlier one.
#[tactic(auto, unfolding(language::specs::Read::archive_call))]
pub fn tergyosul_read_archive(
    text: &[u8],
    sheet: &[u8],
    lent: &[u8],
    party: u8,
    primary: u8,
    words: &mut [u32],
    answer: &mut [u32],
) -> u32
    ensures number { result ≡ by_room answer_words answer.old no_room (read_of (archive_call party primary) text.now sheet.now (lent_topics lent.now) words.old).answer.number }
    ensures words { words.new ≡ by_room answer_words answer.old words.old (read_of (archive_call party primary) text.now sheet.now (lent_topics lent.now) words.old).buffer }
    ensures answer { answer.new ≡ flat answer.old (read_of (archive_call party primary) text.now sheet.now (lent_topics lent.now) words.old).answer }
{
    read_by(
        Call {
            habit: Habit::Archive,
            party,
            primary,
        },
        text,
        sheet,
        lent,
        words,
        answer,
    )
}

// The shop's call: what `tergyosul_read` answers, less the forms that the profile leaves out, which are refused with 57, 58 and 59.
#[tactic(auto, unfolding(language::specs::Read::shop_call))]
pub fn tergyosul_read_shop(
    text: &[u8],
    sheet: &[u8],
    lent: &[u8],
    party: u8,
    primary: u8,
    words: &mut [u32],
    answer: &mut [u32],
) -> u32
    ensures number { result ≡ by_room answer_words answer.old no_room (read_of (shop_call party primary) text.now sheet.now (lent_topics lent.now) words.old).answer.number }
    ensures words { words.new ≡ by_room answer_words answer.old words.old (read_of (shop_call party primary) text.now sheet.now (lent_topics lent.now) words.old).buffer }
    ensures answer { answer.new ≡ flat answer.old (read_of (shop_call party primary) text.now sheet.now (lent_topics lent.now) words.old).answer }
{
    read_by(
        Call {
            habit: Habit::Shop,
            party,
            primary,
        },
        text,
        sheet,
        lent,
        words,
        answer,
    )
}

// The sheet's own primary adapter, which its first line names; 0 where it names none. A call that is to go by it passes it on.
pub fn tergyosul_sheet_primary(sheet: &[u8]) -> u32
    ensures { result ≡ primary_line (lines sheet.now) }
{
    sheet::rows::primary(sheet)
}
