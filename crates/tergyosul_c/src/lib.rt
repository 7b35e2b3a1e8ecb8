// The static library for C and Rust: each call of `tergyosul` under its own name, with its clauses. A slice is passed as a pointer and a length.
// What a call takes, and what it answers, is said at `tergyosul`'s function of that name, and in include/tergyosul.h.
#![tactic(auto)]

ghost use Rattle.std.specs.Prelude.{◌≡◌};
ghost use Rattle.tokens.specs.Lex.{lex_answer, lex_words};
ghost use Rattle.tokens.specs.Buffer.{lex_number};
ghost use Rattle.sheet.specs.Sheet.{lines, primary_line};
ghost use Rattle.topics.specs.Topics.{lent_topics};
ghost use Rattle.language.specs.Read.{read_of, rule_call, archive_call, shop_call};
ghost use Rattle.chains.specs.Way.{next_of};
ghost use Rattle.writing.specs.Writing.{write_of};
ghost use Rattle.old_rows.specs.Back.{back_of};
ghost use Rattle.old_rows.specs.Convert.{rows_of};
ghost use Rattle.join.specs.Join.{join_of};
ghost use Rattle.flat.specs.Flat.{answer_words, flat};
ghost use Rattle.tergyosul.specs.Chains.{chain_answer_words, chain_flat};
ghost use Rattle.tergyosul.specs.Converting.{triggers_alone, condition_count};
ghost use Rattle.tergyosul.specs.Joining.{flat_joined};
ghost use Rattle.tergyosul.specs.Lexing.{lex_flat};
ghost use Rattle.tergyosul.specs.Room.{no_room, lex_answer_words, by_room};
ghost use Rattle.tergyosul.specs.Writing.{lists_in, write_answer_words, written_flat};

// Lexes a text.
#[unsafe(no_mangle)]
pub extern "C" fn tergyosul_lex(text: &[u8], words: &mut [u32], answer: &mut [u32]) -> u32
    ensures number { result ≡ by_room lex_answer_words answer.old no_room (lex_number (lex_answer text.now words.old)) }
    ensures words { words.new ≡ by_room lex_answer_words answer.old words.old (lex_words text.now words.old) }
    ensures answer { answer.new ≡ lex_flat (lex_answer text.now words.old) answer.old }
{
    tergyosul::tergyosul_lex(text, words, answer)
}

// Reads a rule.
#[unsafe(no_mangle)]
pub extern "C" fn tergyosul_read(
    text: &[u8],
    sheet: &[u8],
    lent: &[u8],
    party: u8,
    primary: u8,
    words: &mut [u32],
    answer: &mut [u32],
) -> u32
    ensures number { result ≡ by_room answer_words answer.old no_room (read_of (rule_call party primary) text.now sheet.now (lent_topics lent.now) words.old).answer.number }
    ensures words { words.new ≡ by_room answer_words answer.old words.old (read_of (rule_call party primary) text.now sheet.now (lent_topics lent.now) words.old).buffer }
    ensures answer { answer.new ≡ flat answer.old (read_of (rule_call party primary) text.now sheet.now (lent_topics lent.now) words.old).answer }
{
    tergyosul::tergyosul_read(text, sheet, lent, party, primary, words, answer)
}

// Reads a rule as the archive loader does.
#[unsafe(no_mangle)]
pub extern "C" fn tergyosul_read_archive(
    text: &[u8],
    sheet: &[u8],
    lent: &[u8],
    party: u8,
    primary: u8,
    words: &mut [u32],
    answer: &mut [u32],
) -> u32
    ensures number { result ≡ by_room answer_words answer.old no_room (read_of (archive_call party primary) text.now sheet.now (lent_topics lent.now) words.old).answer.number }
    ensures words { words.new ≡ by_room answer_words answer.old words.old (read_of (archive_call party primary) text.now sheet.now (lent_topics lent.now) words.old).buffer }
    ensures answer { answer.new ≡ flat answer.old (read_of (archive_call party primary) text.now sheet.now (lent_topics lent.now) words.old).answer }
{
    tergyosul::tergyosul_read_archive(text, sheet, lent, party, primary, words, answer)
}

// Reads a rule under the shop profile.
#[unsafe(no_mangle)]
pub extern "C" fn tergyosul_read_shop(
    text: &[u8],
    sheet: &[u8],
    lent: &[u8],
    party: u8,
    primary: u8,
    words: &mut [u32],
    answer: &mut [u32],
) -> u32
    ensures number { result ≡ by_room answer_words answer.old no_room (read_of (shop_call party primary) text.now sheet.now (lent_topics lent.now) words.old).answer.number }
    ensures words { words.new ≡ by_room answer_words answer.old words.old (read_of (shop_call party primary) text.now sheet.now (lent_topics lent.now) words.old).buffer }
    ensures answer { answer.new ≡ flat answer.old (read_of (shop_call party primary) text.now sheet.now (lent_topics lent.now) words.old).answer }
{
    tergyosul::tergyosul_read_shop(text, sheet, lent, party, primary, words, answer)
}

// The sheet's own primary adapter.
#[unsafe(no_mangle)]
pub extern "C" fn tergyosul_sheet_primary(sheet: &[u8]) -> u32
    ensures { result ≡ primary_line (lines sheet.now) }
{
    tergyosul::tergyosul_sheet_primary(sheet)
}

// Joins two rules.
#[unsafe(no_mangle)]
pub extern "C" fn tergyosul_join(
    first: &[u8],
    second: &[u8],
    sheet: &[u8],
    lent: &[u8],
    party: u8,
    primary: u8,
    words: &mut [u32],
    others: &mut [u32],
    answer: &mut [u32],
) -> u32
    ensures number { result ≡ by_room answer_words answer.old no_room (join_of party primary first.now second.now sheet.now (lent_topics lent.now) words.old others.old).joined.answer.number }
    ensures first { words.new ≡ by_room answer_words answer.old words.old (join_of party primary first.now second.now sheet.now (lent_topics lent.now) words.old others.old).first_buffer }
    ensures second { others.new ≡ by_room answer_words answer.old others.old (join_of party primary first.now second.now sheet.now (lent_topics lent.now) words.old others.old).second_buffer }
    ensures answer { answer.new ≡ flat_joined answer.old (join_of party primary first.now second.now sheet.now (lent_topics lent.now) words.old others.old).joined }
{
    tergyosul::joining::tergyosul_join(
        first, second, sheet, lent, party, primary, words, others, answer,
    )
}

// Writes a rule out.
#[unsafe(no_mangle)]
pub extern "C" fn tergyosul_write(
    first: &[u8],
    second: &[u8],
    sheet: &[u8],
    party: u8,
    primary: u8,
    lists: &[u32],
    out: &mut [u8],
    answer: &mut [u32],
) -> u32
    ensures number { result ≡ by_room write_answer_words answer.old no_room (write_of party primary first.now second.now sheet.now (lists_in lists.now) out.old).answer.number }
    ensures text { out.new ≡ by_room write_answer_words answer.old out.old (write_of party primary first.now second.now sheet.now (lists_in lists.now) out.old).buffer }
    ensures answer { answer.new ≡ written_flat (write_of party primary first.now second.now sheet.now (lists_in lists.now) out.old).answer answer.old }
{
    tergyosul::written::tergyosul_write(first, second, sheet, party, primary, lists, out, answer)
}

// Converts the previous owners' rows to triggers.
#[unsafe(no_mangle)]
pub extern "C" fn tergyosul_rows(
    rows: &[u8],
    sheet: &[u8],
    party: u8,
    primary: u8,
    answer: &mut [u32],
) -> u32
    ensures number { result ≡ by_room answer_words answer.old no_room (rows_of party primary rows.now sheet.now).number }
    ensures answer { answer.new ≡ flat answer.old (rows_of party primary rows.now sheet.now) }
{
    tergyosul::converting::tergyosul_rows(rows, sheet, party, primary, answer)
}

// Converts a rule without conditions back to such rows.
#[unsafe(no_mangle)]
pub extern "C" fn tergyosul_rows_back(
    sheet: &[u8],
    party: u8,
    primary: u8,
    lists: &[u32],
    out: &mut [u8],
    answer: &mut [u32],
) -> u32
    ensures number { result ≡ by_room write_answer_words answer.old no_room (back_of party primary sheet.now (triggers_alone lists.now) (condition_count lists.now) out.old).answer.number }
    ensures rows { out.new ≡ by_room write_answer_words answer.old out.old (back_of party primary sheet.now (triggers_alone lists.now) (condition_count lists.now) out.old).buffer }
    ensures answer { answer.new ≡ written_flat (back_of party primary sheet.now (triggers_alone lists.now) (condition_count lists.now) out.old).answer answer.old }
{
    tergyosul::converting::tergyosul_rows_back(sheet, party, primary, lists, out, answer)
}

// The next short condition behind `pieces`.
#[unsafe(no_mangle)]
pub extern "C" fn tergyosul_next_chain(pieces: &[u8], answer: &mut [u32]) -> u32
    ensures number { result ≡ by_room chain_answer_words answer.old no_room (next_of pieces.now).number }
    ensures answer { answer.new ≡ chain_flat (next_of pieces.now) answer.old }
{
    tergyosul::chain::tergyosul_next_chain(pieces, answer)
}
