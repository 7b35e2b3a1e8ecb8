// The two lists asked entry by entry (specs/Writing.antt): which is the first that no text could give, and which the first that the call cannot name?
ghost use Rattle.std.specs.Prelude.{◌≡◌, true};
ghost use Rattle.sheet.specs.View.{view_of};
ghost use Rattle.writing.specs.Writing.{possible_counts, possible_trigger_from, possible_condition_from, first_impossible, first_unreached};

use crate::{failing, possible, reached};
use sheet::View;
use writing::{ConditionFrom, Lists, TriggerFrom};

// How many entries a list has at most.
const MOST_ENTRIES: u32 = 4;

// Are there one to four triggers, and at most four conditions?
#[tactic(auto, unfolding(writing::specs::Writing::possible_counts))]
pub fn possible_counts(l: Lists) -> bool
    ensures { result ≡ possible_counts l }
{
    1 <= l.triggers.count && l.triggers.count <= MOST_ENTRIES && l.conditions.count <= MOST_ENTRIES
}

#[tactic(auto, unfolding(writing::specs::Writing::is_text, writing::specs::Writing::text_of, writing::specs::Writing::possible_trigger_from))]
fn possible_trigger_from(first: &[u8], second: &[u8], x: TriggerFrom) -> bool
    ensures { result ≡ possible_trigger_from first.now second.now x }
{
    match x.from {
        1 => possible::possible_trigger(first, x.trigger),
        2 => possible::possible_trigger(second, x.trigger),
        _ => false,
    }
}

#[tactic(auto, unfolding(writing::specs::Writing::is_text, writing::specs::Writing::text_of, writing::specs::Writing::possible_condition_from))]
fn possible_condition_from(first: &[u8], second: &[u8], y: ConditionFrom) -> bool
    ensures { result ≡ possible_condition_from first.now second.now y }
{
    match y.from {
        1 => possible::possible_condition(first, y.condition),
        2 => possible::possible_condition(second, y.condition),
        _ => false,
    }
}

// The ordinal of the first entry that no text could give, triggers first, or 0.
pub fn first_impossible(first: &[u8], second: &[u8], l: Lists) -> u32
    requires { possible_counts l ≡ true }
    ensures { result ≡ first_impossible first.now second.now l }
{
    let triggers = &l.triggers.rows[..l.triggers.count as usize];
    let at = failing(triggers, 1, |x| possible_trigger_from(first, second, *x));
    if at != 0 {
        return at;
    }
    let conditions = &l.conditions.rows[..l.conditions.count as usize];
    failing(
        conditions,
        l.triggers.count + 1,
        |y| possible_condition_from(first, second, *y),
    )
}

// The ordinal of the first entry that the call cannot name, triggers first, or 0.
pub fn first_unreached(view: &View<'_>, l: Lists) -> u32
    requires { possible_counts l ≡ true }
    ensures { result ≡ first_unreached (view_of view.now.settings view.now.sheet.now) l }
{
    let triggers = &l.triggers.rows[..l.triggers.count as usize];
    let at = failing(triggers, 1, |x| reached::reached_trigger(view, x.trigger));
    if at != 0 {
        return at;
    }
    let conditions = &l.conditions.rows[..l.conditions.count as usize];
    failing(
        conditions,
        l.triggers.count + 1,
        |y| reached::reached_condition(view, y.condition),
    )
}
