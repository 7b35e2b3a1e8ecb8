// The call that outsiders make: a rule text and a name sheet in, both lists or one numbered refusal out.
ghost use Rattle.std.specs.Prelude.{◌≡◌, true, ◌≤◌, length};
ghost use Rattle.text.specs.Place.{check_of};
ghost use Rattle.topics.specs.Topics.{lent_topics};
ghost use Rattle.topics.specs.Ranges.{lent_with};
ghost use Rattle.tokens.specs.Lexing.{most_bytes, least_words};
ghost use Rattle.tokens.specs.Buffer.{Holds, front_of};
ghost use Rattle.sheet.specs.Sheet.{sheet_check};
ghost use Rattle.sheet.specs.View.{view_of, seen, own_primary};
ghost use Rattle.sheet.specs.declared.Habit.{Habit};
ghost use Rattle.language.specs.Profile.{Profiled};
ghost use Rattle.model.specs.Lists.{refused_with};
ghost use Rattle.language.specs.Read.{rule_in, on_accepted, rule_of, by_text, by_sheet, read_of, rule_call, archive_call, shop_call};
ghost use Rattle.language.specs.Demand.{Exact};
ghost use Rattle.reader.specs.Parts.{with_habit, to_rule, placed, answered, not_own};

use crate::parts::{Lent, Rule};
use crate::section;
use model::Answer;
use sheet::{Call, Habit, Settings, View, adapters};
use text::place;
use tokens::cursor::{Refusal, Tokens};

// The place of a refusal is that of its token, or the end's.
fn placed_at(words: &[u32], line: u32, column: u32, refusal: Refusal) -> Answer
    ensures { result ≡ placed words.now line column refusal }
{
    let i = refusal.token;
    if i < tokens::record::count(words) {
        return model::refused(
            refusal.number,
            tokens::record::line(words, i),
            tokens::record::column(words, i),
            refusal.detail,
        );
    }
    model::refused(refusal.number, line, column, refusal.detail)
}

// The same settings in a call of another habit.
#[tactic(auto, unfolding(crate::specs::Parts::with_habit))]
fn with_habit(habit: Habit, settings: Settings) -> Settings
    ensures { result ≡ with_habit habit settings }
{
    Settings { habit, ..settings }
}

// The rule in the records under the shop profile, which is judged on an accepted reading: it is read twice.
#[tactic(auto, unfolding(language::specs::Read::on_accepted, crate::specs::Parts::to_rule))]
fn profiled_rule(t: &Tokens<'_>, view: &View<'_>, lent: &Lent<'_>) -> Result<Rule, Refusal>
    ensures { result ≡ to_rule (on_accepted (rule_in t.now.text.now t.now.words.now (view_of (with_habit Habit.Rule view.now.settings) view.now.sheet.now) (lent_with lent.now.lines.now lent.now.first.now lent.now.earlier.now)) (rule_in t.now.text.now t.now.words.now (view_of (with_habit Habit.Shop view.now.settings) view.now.sheet.now) (lent_with lent.now.lines.now lent.now.first.now lent.now.earlier.now))) }
{
    let full = View {
        settings: with_habit(Habit::Rule, view.settings),
        ..*view
    };
    section::rule(t, &full, lent)?;
    let shop = View {
        settings: with_habit(Habit::Shop, view.settings),
        ..*view
    };
    section::rule(t, &shop, lent)
}

// The rule in the records.
fn rule_of(t: &Tokens<'_>, view: &View<'_>, lent: &Lent<'_>) -> Result<Rule, Refusal>
    ensures { result ≡ to_rule (rule_of t.now.text.now t.now.words.now (view_of view.now.settings view.now.sheet.now) (lent_with lent.now.lines.now lent.now.first.now lent.now.earlier.now)) }
{
    match view.settings.habit {
        Habit::Rule | Habit::Archive => section::rule(t, view, lent),
        Habit::Shop => profiled_rule(t, view, lent),
    }
}

// Parses the tokens in the records; line and column are the end's.
#[tactic(auto, unfolding(crate::specs::Parts::answered, crate::specs::Parts::to_rule, model::specs::Lists::accepted_with))]
fn parse(t: &Tokens<'_>, view: &View<'_>, lent: &Lent<'_>, line: u32, column: u32) -> Answer
    ensures { result ≡ answered t.now.words.now line column (rule_of t.now.text.now t.now.words.now (view_of view.now.settings view.now.sheet.now) (lent_with lent.now.lines.now lent.now.first.now lent.now.earlier.now)) }
{
    match rule_of(t, view, lent) {
        Ok(rule) => Answer {
            number: 0,
            line: 0,
            column: 0,
            detail: 0,
            triggers: rule.triggers,
            conditions: rule.conditions,
        },
        Err(refusal) => placed_at(t.words, line, column, refusal),
    }
}

// The call from question 4 on, where its primary adapter is its party's. The lexer asks question 4 before it lexes the whole text; then the tokens are
// parsed. Questions 1 and 2 are passed, here and below.
fn read_text(text: &[u8], view: &View<'_>, lent: &Lent<'_>, words: &mut [u32]) -> Answer
    requires { (length text.now ≤ most_bytes) × (least_words ≤ length words.old) }
    ensures { (result ≡ (by_text text.now (view_of view.now.settings view.now.sheet.now) (lent_with lent.now.lines.now lent.now.first.now lent.now.earlier.now) words.old true (check_of text.now)).answer) × (words.new ≡ (by_text text.now (view_of view.now.settings view.now.sheet.now) (lent_with lent.now.lines.now lent.now.first.now lent.now.earlier.now) words.old true (check_of text.now)).buffer) }
{
    match tokens::lexer::lex(text, words) {
        Err(refusal) => model::refused(refusal.number, refusal.line, refusal.column, 0),
        Ok(lexed) => {
            let t = Tokens {
                text,
                words: &words[..lexed.count * tokens::record::RECORD_SIZE],
            };
            parse(&t, view, lent, lexed.line, lexed.column)
        }
    }
}

// The call from question 4 on, where its primary adapter is not its party's.
#[tactic(auto, using(crate::proofs::ReadLaws::not_own_by), unfolding(crate::specs::Parts::not_own))]
fn not_own(text: &[u8]) -> Answer
    ensures { result ≡ not_own (check_of text.now) }
{
    match place::check_utf8(text) {
        Err(ill) => model::refused(4, ill.line, ill.column, 0),
        Ok(()) => model::refused(53, 0, 0, 0),
    }
}

// The call from question 3 on.
fn read_sheet(call: Call, text: &[u8], sheet: &[u8], lent: &Lent<'_>, words: &mut [u32]) -> Answer
    requires { (length text.now ≤ most_bytes) × (least_words ≤ length words.old) }
    ensures { (result ≡ (by_sheet text.now (seen call sheet.now) (lent_with lent.now.lines.now lent.now.first.now lent.now.earlier.now) words.old (own_primary call sheet.now) (sheet_check sheet.now)).answer) × (words.new ≡ (by_sheet text.now (seen call sheet.now) (lent_with lent.now.lines.now lent.now.first.now lent.now.earlier.now) words.old (own_primary call sheet.now) (sheet_check sheet.now)).buffer) }
{
    match sheet::rows::check(sheet, call.party as u32) {
        Err(bad) => model::refused(3, bad.line, 0, 0),
        Ok(said) => {
            let settings = Settings {
                primary: call.primary as u32,
                habit: call.habit,
                own: said.own,
                listed: said.listed,
            };
            if adapters::has(settings.own, settings.primary) {
                return read_text(text, &View { sheet, settings }, lent, words);
            }
            not_own(text)
        }
    }
}

// The call of any habit, read after an earlier rule whose topics count as lent: they stand in the first text where the words `earlier` say, a start and a length for each.
pub fn read_after(
    call: Call,
    text: &[u8],
    sheet: &[u8],
    lent: &[u8],
    first: &[u8],
    earlier: &[u32],
    words: &mut [u32],
) -> Answer
    ensures value { (result ≡ (read_of call text.now sheet.now (lent_with lent.now first.now earlier.now) words.old).answer) × (words.new ≡ (read_of call text.now sheet.now (lent_with lent.now first.now earlier.now) words.old).buffer) }
    ensures buffer { Holds (front_of result.number text.now) words.old words.new }
    ensures reading { Exact call text.now sheet.now (lent_with lent.now first.now earlier.now) (length words.old) result }
{
    if tokens::lexer::MOST_BYTES < text.len() {
        return model::refused(1, 0, 0, 0);
    }
    if words.len() < tokens::lexer::LEAST_WORDS {
        return model::refused(2, 0, 0, 0);
    }
    let lent = Lent {
        lines: lent,
        first,
        earlier,
    };
    read_sheet(call, text, sheet, &lent, words)
}

// The call of any habit.
pub fn read_by(call: Call, text: &[u8], sheet: &[u8], lent: &[u8], words: &mut [u32]) -> Answer
    ensures value { (result ≡ (read_of call text.now sheet.now (lent_topics lent.now) words.old).answer) × (words.new ≡ (read_of call text.now sheet.now (lent_topics lent.now) words.old).buffer) }
    ensures buffer { Holds (front_of result.number text.now) words.old words.new }
    ensures reading { Exact call text.now sheet.now (lent_topics lent.now) (length words.old) result }
{
    let none = [0; 1];
    read_after(call, text, sheet, lent, &text[..0], &none[..0], words)
}

// Reads a rule text with a name sheet and the lent topics of earlier rules, for a party, with its own primary adapter. The tokens' records go to the lent words. The answer, and each word at exit,
// are those of the definition of the whole call; said in other words, the first words are the records of the tokens completed before the refusal, or of all, and
// every other word is the one that was there; and the third demand: it is accepted exactly when the text has a reading with what the party sees of the sheet, with
// that reading's lists. A repeated argument of `input(` is refused.
pub fn read(
    text: &[u8],
    sheet: &[u8],
    lent: &[u8],
    party: u8,
    primary: u8,
    words: &mut [u32],
) -> Answer
    ensures value { (result ≡ (read_of (rule_call party primary) text.now sheet.now (lent_topics lent.now) words.old).answer) × (words.new ≡ (read_of (rule_call party primary) text.now sheet.now (lent_topics lent.now) words.old).buffer) }
    ensures buffer { Holds (front_of result.number text.now) words.old words.new }
    ensures reading { Exact (rule_call party primary) text.now sheet.now (lent_topics lent.now) (length words.old) result }
{
    read_by(
        Call {
            habit: Habit::Rule,
            party,
            primary,
        },
        text,
        sheet,
        lent,
        words,
    )
}

// The archive loader's call: the same, but that a repeated argument of `input(` replaces the earlier one. Where `read` does not answer 63, this call answers
// as it does.
pub fn read_archive(
    text: &[u8],
    sheet: &[u8],
    lent: &[u8],
    party: u8,
    primary: u8,
    words: &mut [u32],
) -> Answer
    ensures value { (result ≡ (read_of (archive_call party primary) text.now sheet.now (lent_topics lent.now) words.old).answer) × (words.new ≡ (read_of (archive_call party primary) text.now sheet.now (lent_topics lent.now) words.old).buffer) }
    ensures buffer { Holds (front_of result.number text.now) words.old words.new }
    ensures reading { Exact (archive_call party primary) text.now sheet.now (lent_topics lent.now) (length words.old) result }
{
    read_by(
        Call {
            habit: Habit::Archive,
            party,
            primary,
        },
        text,
        sheet,
        lent,
        words,
    )
}

// The shop's call: what `read` answers, less the forms that the profile leaves out. It accepts a text of which `read` accepts a reading with none of them, with
// the same lists; the earliest of them is refused, and any other refusal of `read` is this call's. The words are those that `read` leaves.
pub fn read_shop(
    text: &[u8],
    sheet: &[u8],
    lent: &[u8],
    party: u8,
    primary: u8,
    words: &mut [u32],
) -> Answer
    ensures value { (result ≡ (read_of (shop_call party primary) text.now sheet.now (lent_topics lent.now) words.old).answer) × (words.new ≡ (read_of (shop_call party primary) text.now sheet.now (lent_topics lent.now) words.old).buffer) }
    ensures buffer { Holds (front_of result.number text.now) words.old words.new }
    ensures reading { Exact (shop_call party primary) text.now sheet.now (lent_topics lent.now) (length words.old) result }
    ensures profile { Profiled party primary text.now sheet.now (lent_topics lent.now) (length words.old) (read_of (rule_call party primary) text.now sheet.now (lent_topics lent.now) words.old) (record { answer = result; buffer = words.new }) }
{
    read_by(
        Call {
            habit: Habit::Shop,
            party,
            primary,
        },
        text,
        sheet,
        lent,
        words,
    )
}
