// The two lists that the words of an answer have (specs/Writing.antt).
ghost use Rattle.std.specs.Prelude.{◌≡◌, ◌<◌};
ghost use Rattle.flat.specs.Flat.{list_rows, row_count};
ghost use Rattle.flat.specs.Back.{word};
ghost use Rattle.tergyosul.specs.Converting.{without_text, without_texts, triggers_alone, condition_count};
ghost use Rattle.tergyosul.specs.Writing.{trigger_from, condition_from, row_in, text_said, trigger_in, condition_in, triggers_in, conditions_in, lists_in};

use flat::rows::{ROW_WORDS, Row};
use model::{Condition, Trigger, TriggerRow, Triggers};
use writing::{ConditionFrom, ConditionsFrom, Lists, TriggerFrom, TriggersFrom};

// Where in row 0 the counts stand, and the texts.
const TRIGGER_COUNT: usize = 4;

const CONDITION_COUNT: usize = 5;

const TRIGGERS_FROM: usize = crate::joining::WHICH + 1;

const CONDITIONS_FROM: usize = TRIGGERS_FROM + flat::LIST_ROWS;

// The text of an entry that stands in none.
const NO_TEXT: u32 = 0;

// A trigger from its row, whose names stand in the text `from`. Of words that are no trigger's row it is one that stands in no text.
#[tactic(auto, unfolding(crate::specs::Writing::trigger_from))]
pub fn trigger_from(from: u32, row: Row) -> TriggerFrom
    ensures { result ≡ trigger_from from row }
{
    if back::is_trigger(row) {
        return TriggerFrom {
            from,
            trigger: back::triggers::trigger_back(row),
        };
    }
    TriggerFrom {
        from: NO_TEXT,
        trigger: Trigger::HttpTrigger,
    }
}

// The same of a condition.
#[tactic(auto, unfolding(crate::specs::Writing::condition_from))]
pub fn condition_from(from: u32, row: Row) -> ConditionFrom
    ensures { result ≡ condition_from from row }
{
    if back::is_condition(row) {
        return ConditionFrom {
            from,
            condition: back::conditions::condition_back(row),
        };
    }
    ConditionFrom {
        from: NO_TEXT,
        condition: Condition::ControllerActive,
    }
}

// A word; 0 past the end.
fn word_in(words: &[u32], i: usize) -> u32
    ensures { result ≡ word words.now i }
{
    words.get(i).copied().unwrap_or(0)
}

// A row; words past the end are 0.
fn row_in(words: &[u32], row: usize) -> Row
    requires { row < row_count }
    ensures { result ≡ row_in words.now row }
{
    let at = row * ROW_WORDS;
    let mut out = [0; ROW_WORDS];
    for i in 0..ROW_WORDS {
        out[i] = word_in(words, at + i);
    }
    out
}

// The text that a word of row 0 names: the first, where it names none.
#[tactic(auto, unfolding(crate::specs::Writing::text_said))]
fn text_said(n: u32) -> u32
    ensures { result ≡ text_said n }
{
    if n == 0 { 1 } else { n }
}

// The trigger with an index.
#[tactic(auto, unfolding(crate::specs::Writing::trigger_in, flat::specs::Flat::list_rows, flat::specs::Flat::first_trigger, flat::specs::Flat::first_condition, flat::specs::Flat::row_count))]
fn trigger_in(words: &[u32], i: usize) -> TriggerFrom
    requires { i < list_rows }
    ensures { result ≡ trigger_in words.now i }
{
    let from = text_said(word_in(words, TRIGGERS_FROM + i));
    trigger_from(from, row_in(words, flat::FIRST_TRIGGER + i))
}

#[tactic(auto, unfolding(crate::specs::Writing::condition_in, flat::specs::Flat::list_rows, flat::specs::Flat::first_trigger, flat::specs::Flat::first_condition, flat::specs::Flat::row_count))]
fn condition_in(words: &[u32], i: usize) -> ConditionFrom
    requires { i < list_rows }
    ensures { result ≡ condition_in words.now i }
{
    let from = text_said(word_in(words, CONDITIONS_FROM));
    condition_from(from, row_in(words, flat::FIRST_CONDITION + i))
}

#[tactic(auto, unfolding(crate::specs::Writing::triggers_in, flat::specs::Flat::list_rows))]
fn triggers_in(words: &[u32]) -> TriggersFrom
    ensures { result ≡ triggers_in words.now }
{
    TriggersFrom {
        rows: [
            trigger_in(words, 0),
            trigger_in(words, 1),
            trigger_in(words, 2),
            trigger_in(words, 3),
        ],
        count: word_in(words, TRIGGER_COUNT),
    }
}

#[tactic(auto, unfolding(crate::specs::Writing::conditions_in, flat::specs::Flat::list_rows))]
fn conditions_in(words: &[u32]) -> ConditionsFrom
    ensures { result ≡ conditions_in words.now }
{
    ConditionsFrom {
        rows: [
            condition_in(words, 0),
            condition_in(words, 1),
            condition_in(words, 2),
            condition_in(words, 3),
        ],
        count: word_in(words, CONDITION_COUNT),
    }
}

// Both lists. Rows past a count may be anything.
#[tactic(auto, unfolding(crate::specs::Writing::lists_in))]
pub fn lists_in(words: &[u32]) -> Lists
    ensures { result ≡ lists_in words.now }
{
    Lists {
        triggers: triggers_in(words),
        conditions: conditions_in(words),
    }
}

// A trigger without the text of its name.
#[tactic(auto, unfolding(crate::specs::Converting::without_text))]
fn without_text(x: TriggerFrom) -> TriggerRow
    ensures { result ≡ without_text x }
{
    TriggerRow { trigger: x.trigger }
}

pub fn without_texts(t: TriggersFrom) -> Triggers
    ensures { result ≡ without_texts t }
{
    Triggers {
        rows: [
            without_text(t.rows[0]),
            without_text(t.rows[1]),
            without_text(t.rows[2]),
            without_text(t.rows[3]),
        ],
        count: t.count as usize,
    }
}

// The triggers alone. Of words that are no trigger's row it is one that no row of the previous owners says.
pub fn triggers_alone(words: &[u32]) -> Triggers
    ensures { result ≡ triggers_alone words.now }
{
    without_texts(triggers_in(words))
}

// How many conditions there are.
#[tactic(auto, unfolding(crate::specs::Converting::condition_count))]
pub fn condition_count(words: &[u32]) -> usize
    ensures { result ≡ condition_count words.now }
{
    word_in(words, CONDITION_COUNT) as usize
}
