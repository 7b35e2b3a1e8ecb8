// The parts of a call's answer, and the lists as they grow.
ghost use Rattle.std.specs.Prelude.{◌≡◌, [], ◌∷◌};
ghost use Rattle.model.specs.Lists.{conditions_of};
ghost use Rattle.reader.specs.Parts.{with_condition};

use model::{Condition, ConditionRow, Conditions, Triggers};

// The topics that count as lent: those of earlier rules, a line for each, and those that stand in another text where words say, a start
// and a length for each.
#[derive(Clone, Copy)]
pub struct Lent<'a> {
    pub lines: &'a [u8],
    pub first: &'a [u8],
    pub earlier: &'a [u32],
}

// Both lists of a rule.
#[derive(Clone, Copy)]
pub struct Rule {
    pub triggers: Triggers,
    pub conditions: Conditions,
}

// The list with one more condition. A full one stays as it is.
pub fn with_condition(list: Conditions, y: Condition) -> Conditions
    ensures { result ≡ with_condition list y }
{
    let at = list.count;
    if 4 <= at {
        return list;
    }
    let mut more = list;
    more.rows[at] = ConditionRow { condition: y };
    more.count = at + 1;
    more
}

// A list of one condition.
pub fn one_condition(y: Condition) -> Conditions
    ensures { result ≡ conditions_of (y ∷ []) }
{
    with_condition(model::no_conditions(), y)
}
