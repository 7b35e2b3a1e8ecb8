// The lists of a rule that was read as those that are written. Names stand in the rule's own text, which is the first.
use model::Answer;
use writing::{ConditionFrom, ConditionsFrom, Lists, TriggerFrom, TriggersFrom};

pub fn of(a: Answer) -> Lists {
    Lists {
        triggers: TriggersFrom {
            rows: a.triggers.rows.map(|row| TriggerFrom {
                from: 1,
                trigger: row.trigger,
            }),
            count: text::place::held(a.triggers.count),
        },
        conditions: ConditionsFrom {
            rows: a.conditions.rows.map(|row| ConditionFrom {
                from: 1,
                condition: row.condition,
            }),
            count: text::place::held(a.conditions.count),
        },
    }
}
