// What is written for the two lists (document 02, §7): definitions, and the values of the call.
#![tactic(auto)]

use model::{Condition, Trigger};

// An entry, and the text in which its names stand: 1 for the first, 2 for the second.
#[derive(Clone, Copy)]
pub struct TriggerFrom {
    pub from: u32,
    pub trigger: Trigger,
}

#[derive(Clone, Copy)]
pub struct ConditionFrom {
    pub from: u32,
    pub condition: Condition,
}

// The lists: four entries each, of which the first count are in use: nothing is put on the heap.
#[derive(Clone, Copy)]
pub struct TriggersFrom {
    pub rows: [TriggerFrom; 4],
    pub count: u32,
}

#[derive(Clone, Copy)]
pub struct ConditionsFrom {
    pub rows: [ConditionFrom; 4],
    pub count: u32,
}

#[derive(Clone, Copy)]
pub struct Lists {
    pub triggers: TriggersFrom,
    pub conditions: ConditionsFrom,
}

// The answer: four zeros and how many bytes were written, or a refusal's number, place and detail. The number says which, as
// include/tergyosul.h has it for C.
#[derive(Clone, Copy)]
pub struct Written {
    pub number: u32,
    pub line: u32,
    pub column: u32,
    pub detail: u32,
    pub length: u32,
}
