// A whole rule as it is written.
ghost use Rattle.std.specs.Prelude.{◌+◌, ◌≤◌, ◌≡◌, true, ◌∷◌, map, take, drop};
ghost use Rattle.text.specs.Literal.{ascii};
ghost use Rattle.language.specs.Limits.{most_triggers, most_ands};
ghost use Rattle.spelling.specs.Put.{Put, Fits};
ghost use Rattle.writing.specs.Pieces.{Piece, spaced, further};
ghost use Rattle.writing.specs.Writing.{behind_each, if_pieces, possible_counts, trigger_from_pieces, condition_from_pieces, list_pieces};

use crate::conditions::put_condition;
use crate::triggers::put_trigger;
use spelling::put::put;
use writing::{ConditionFrom, ConditionsFrom, Lists, TriggerFrom, TriggersFrom};

fn put_trigger_from(
    out: &mut [u8],
    at: usize,
    primary: u32,
    first: &[u8],
    second: &[u8],
    x: TriggerFrom,
) -> usize
    requires { Fits out.old at (further (trigger_from_pieces first.now second.now primary x)) }
    ensures { Put out.old at (further (trigger_from_pieces first.now second.now primary x)) out.new result }
{
    if x.from == 1 {
        return put_trigger(out, at, primary, first, x.trigger);
    }
    put_trigger(out, at, primary, second, x.trigger)
}

// A trigger behind `when`.
fn next_trigger(
    out: &mut [u8],
    at: usize,
    primary: u32,
    first: &[u8],
    second: &[u8],
    x: TriggerFrom,
) -> usize
    requires { Fits out.old at (further (Piece.word (ascii "when") ∷ trigger_from_pieces first.now second.now primary x)) }
    ensures { Put out.old at (further (Piece.word (ascii "when") ∷ trigger_from_pieces first.now second.now primary x)) out.new result }
{
    let i = put(out, at, b" when");
    put_trigger_from(out, i, primary, first, second, x)
}

// The triggers from the second on.
fn more_triggers(
    out: &mut [u8],
    at: usize,
    primary: u32,
    first: &[u8],
    second: &[u8],
    l: TriggersFrom,
) -> usize
    requires { (l.count ≤ most_triggers) × Fits out.old at (further (behind_each (ascii "when") (map (trigger_from_pieces first.now second.now primary) (drop 1 (take l.count l.rows))))) }
    ensures { Put out.old at (further (behind_each (ascii "when") (map (trigger_from_pieces first.now second.now primary) (drop 1 (take l.count l.rows))))) out.new result }
{
    let mut end = at;
    for i in 1..l.count as usize {
        end = next_trigger(out, end, primary, first, second, l.rows[i]);
    }
    end
}

// One trigger or more, at the start of the text.
fn put_triggers(
    out: &mut [u8],
    at: usize,
    primary: u32,
    first: &[u8],
    second: &[u8],
    l: TriggersFrom,
) -> usize
    requires { (1 ≤ l.count) × ((l.count ≤ most_triggers) × Fits out.old at (spaced (behind_each (ascii "when") (map (trigger_from_pieces first.now second.now primary) (take l.count l.rows))))) }
    ensures { Put out.old at (spaced (behind_each (ascii "when") (map (trigger_from_pieces first.now second.now primary) (take l.count l.rows)))) out.new result }
{
    let i = put(out, at, b"when");
    let j = put_trigger_from(out, i, primary, first, second, l.rows[0]);
    more_triggers(out, j, primary, first, second, l)
}

fn put_condition_from(
    out: &mut [u8],
    at: usize,
    primary: u32,
    first: &[u8],
    second: &[u8],
    y: ConditionFrom,
) -> usize
    requires { Fits out.old at (further (condition_from_pieces first.now second.now primary y)) }
    ensures { Put out.old at (further (condition_from_pieces first.now second.now primary y)) out.new result }
{
    if y.from == 1 {
        return put_condition(out, at, primary, first, y.condition);
    }
    put_condition(out, at, primary, second, y.condition)
}

// A condition behind `and`.
fn next_condition(
    out: &mut [u8],
    at: usize,
    primary: u32,
    first: &[u8],
    second: &[u8],
    y: ConditionFrom,
) -> usize
    requires { Fits out.old at (further (Piece.word (ascii "and") ∷ condition_from_pieces first.now second.now primary y)) }
    ensures { Put out.old at (further (Piece.word (ascii "and") ∷ condition_from_pieces first.now second.now primary y)) out.new result }
{
    let i = put(out, at, b" and");
    put_condition_from(out, i, primary, first, second, y)
}

// The conditions from the second on.
fn more_conditions(
    out: &mut [u8],
    at: usize,
    primary: u32,
    first: &[u8],
    second: &[u8],
    l: ConditionsFrom,
) -> usize
    requires { (l.count ≤ most_ands + 1) × Fits out.old at (further (behind_each (ascii "and") (map (condition_from_pieces first.now second.now primary) (drop 1 (take l.count l.rows))))) }
    ensures { Put out.old at (further (behind_each (ascii "and") (map (condition_from_pieces first.now second.now primary) (drop 1 (take l.count l.rows))))) out.new result }
{
    let mut end = at;
    for i in 1..l.count as usize {
        end = next_condition(out, end, primary, first, second, l.rows[i]);
    }
    end
}

// The conditions, if there are any.
fn put_conditions(
    out: &mut [u8],
    at: usize,
    primary: u32,
    first: &[u8],
    second: &[u8],
    l: ConditionsFrom,
) -> usize
    requires { (l.count ≤ most_ands + 1) × Fits out.old at (further (if_pieces (map (condition_from_pieces first.now second.now primary) (take l.count l.rows)))) }
    ensures { Put out.old at (further (if_pieces (map (condition_from_pieces first.now second.now primary) (take l.count l.rows)))) out.new result }
{
    if l.count == 0 {
        return at;
    }
    let i = put(out, at, b" if");
    let j = put_condition_from(out, i, primary, first, second, l.rows[0]);
    more_conditions(out, j, primary, first, second, l)
}

pub fn put_rule(out: &mut [u8], primary: u32, first: &[u8], second: &[u8], l: Lists) -> usize
    requires { (possible_counts l ≡ true) × Fits out.old 0 (spaced (list_pieces first.now second.now primary l)) }
    ensures { Put out.old 0 (spaced (list_pieces first.now second.now primary l)) out.new result }
{
    let i = put_triggers(out, 0, primary, first, second, l.triggers);
    put_conditions(out, i, primary, first, second, l.conditions)
}
