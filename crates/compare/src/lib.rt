// Entries compared as document 02 §3 says: by record, names and other strings by bytes. Nothing is copied: a name is a part of the text in which it stands.
#![tactic(auto)]

ghost use Rattle.std.specs.Prelude.{◌≡◌};
ghost use Rattle.text.specs.Part.{same_bytes};
ghost use Rattle.topics.specs.Ranges.{name_in};
ghost use Rattle.language.specs.Same.{no_name, value_parts, operand_parts, trigger_parts, condition_parts};
ghost use Rattle.compare.specs.Compare.{IsParts, trigger_entry, condition_entry, same_entry, same_trigger, same_condition};

use flat::rows::Row;
use flat::{conditions, triggers};
use model::{Condition, Name, Operand, Reading, Trigger, Value};
use text::part;

// An entry to compare: its row with zeros for its names, and the names. One that it does not have is empty.
#[derive(Clone, Copy)]
pub struct Entry {
    pub row: Row,
    pub first: Name,
    pub second: Name,
}

const NO_NAME: Name = Name {
    start: 0,
    length: 0,
};

// A value with zeros for its name, and the name.
#[tactic(auto, unfolding(language::specs::Same::value_parts, language::specs::Same::reading_parts))]
fn value_parts(v: Value) -> (Value, Name)
    ensures { IsParts (value_parts v) result.0 result.1 no_name }
{
    match v {
        Value::Reads(Reading::Var(n), added) => (Value::Reads(Reading::Var(NO_NAME), added), n),
        _ => (v, NO_NAME),
    }
}

// An operand with zeros for its name, and the name.
#[tactic(auto, unfolding(language::specs::Same::operand_parts))]
fn operand_parts(x: Operand) -> (Operand, Name)
    ensures { IsParts (operand_parts x) result.0 result.1 no_name }
{
    match x {
        Operand::Text(n) => (Operand::Text(NO_NAME), n),
        Operand::Number(v) => {
            let (bare, name) = value_parts(v);
            (Operand::Number(bare), name)
        }
    }
}

// A trigger with zeros for its name, and the name.
#[tactic(auto, unfolding(language::specs::Same::trigger_parts))]
fn trigger_parts(x: Trigger) -> (Trigger, Name)
    ensures { IsParts (trigger_parts x) result.0 result.1 no_name }
{
    match x {
        Trigger::TimerFires(n) => (Trigger::TimerFires(NO_NAME), n),
        Trigger::RuleFails(n) => (Trigger::RuleFails(NO_NAME), n),
        Trigger::MqttMessage(n) => (Trigger::MqttMessage(NO_NAME), n),
        _ => (x, NO_NAME),
    }
}

// A condition with zeros for its names, and the names.
#[tactic(auto, unfolding(language::specs::Same::condition_parts))]
fn condition_parts(y: Condition) -> (Condition, Name, Name)
    ensures { IsParts (condition_parts y) result.0 result.1 result.2 }
{
    match y {
        Condition::LampCompare(r, p, c, v) => {
            let (bare, name) = value_parts(v);
            (Condition::LampCompare(r, p, c, bare), name, NO_NAME)
        }
        Condition::InputLight(r, way, v) => {
            let (bare, name) = value_parts(v);
            (Condition::InputLight(r, way, bare), name, NO_NAME)
        }
        Condition::RuleEnabled(n) => (Condition::RuleEnabled(NO_NAME), n, NO_NAME),
        Condition::LastFiredOlderThan(n, ms) => {
            (Condition::LastFiredOlderThan(NO_NAME, ms), n, NO_NAME)
        }
        Condition::TimerRunning(n) => (Condition::TimerRunning(NO_NAME), n, NO_NAME),
        Condition::VarCompare(n, c, x) => {
            let (bare, text) = operand_parts(x);
            (Condition::VarCompare(NO_NAME, c, bare), n, text)
        }
        _ => (y, NO_NAME, NO_NAME),
    }
}

#[tactic(auto, unfolding(crate::specs::Compare::trigger_entry))]
pub fn trigger_entry(x: Trigger) -> Entry
    ensures { result ≡ trigger_entry x }
{
    let (bare, name) = trigger_parts(x);
    Entry {
        row: triggers::trigger_row(bare),
        first: name,
        second: NO_NAME,
    }
}

#[tactic(auto, unfolding(crate::specs::Compare::condition_entry))]
pub fn condition_entry(y: Condition) -> Entry
    ensures { result ≡ condition_entry y }
{
    let (bare, first, second) = condition_parts(y);
    Entry {
        row: conditions::condition_row(bare),
        first,
        second,
    }
}

// Are two names the same, of which x stands in a and y in b?
#[tactic(auto, unfolding(topics::specs::Ranges::name_in))]
fn same_names(a: &[u8], x: Name, b: &[u8], y: Name) -> bool
    ensures { result ≡ same_bytes (name_in a.now x) (name_in b.now y) }
{
    let i = x.start as usize;
    let j = y.start as usize;
    part::same(
        part::part(a, i, i + x.length as usize),
        part::part(b, j, j + y.length as usize),
    )
}

// Are two entries the same? The names of x stand in a, those of y in b.
#[tactic(auto, using(flat::proofs::RowLaws::same_rows), unfolding(crate::specs::Compare::same_entry))]
pub fn same_entry(a: &[u8], x: Entry, b: &[u8], y: Entry) -> bool
    ensures { result ≡ same_entry a.now b.now x y }
{
    x.row == y.row && same_names(a, x.first, b, y.first) && same_names(a, x.second, b, y.second)
}

// Are two triggers the same?
#[tactic(auto, unfolding(crate::specs::Compare::same_trigger))]
pub fn same_trigger(a: &[u8], x: Trigger, b: &[u8], y: Trigger) -> bool
    ensures { result ≡ same_trigger a.now b.now x y }
{
    same_entry(a, trigger_entry(x), b, trigger_entry(y))
}

// Are two conditions the same?
#[tactic(auto, unfolding(crate::specs::Compare::same_condition))]
pub fn same_condition(a: &[u8], x: Condition, b: &[u8], y: Condition) -> bool
    ensures { result ≡ same_condition a.now b.now x y }
{
    same_entry(a, condition_entry(x), b, condition_entry(y))
}
