// Joining two rules (specs/Join.antt): both are read, and the triggers of the second that are not yet there come behind those of the first.
#![tactic(auto)]

ghost use Rattle.std.specs.Prelude.{◌≡◌, [], ◌++◌, ◌+◌, ◌≤◌, ◌<◌, length};
ghost use Rattle.topics.specs.Topics.{lent_topics};
ghost use Rattle.model.specs.Lists.{refused_with};
ghost use Rattle.language.specs.Limits.{most_triggers};
ghost use Rattle.compare.specs.Compare.{trigger_entry, same_entry};
ghost use Rattle.join.specs.Join.{taken_from, triggers_in, conditions_in, text_of, kept_with, kept_all, same_conditions, refused_join, by_count, both_read, join_of};
ghost use Rattle.join.specs.Joining.{ExactJoin};
ghost use Rattle.join.specs.Kept.{most_kept, kept_of, entry_among, names_by, topic_names, topics_held, OfKept, OfTopics, OfConditions, Few, Finished};

use compare::Entry;
use model::{Answer, Conditions, Name, Trigger, TriggerRow, Triggers};
use sheet::{Call, Habit};

// How many triggers two texts have at most, and how many words the ranges of a text's topics are.
const MOST_KEPT: usize = 8;

const MOST_TRIGGERS: usize = 4;

// The answer of joining. `which` is the text that is refused, 1 or 2, or 0 for neither. The names of an accepted trigger stand in the text that `from` gives in its place, 1 or 2;
// those of the conditions stand in the first text. Numbers say which, as include/tergyosul.h has it for C.
#[derive(Clone, Copy)]
pub struct Joined {
    pub which: u32,
    pub answer: Answer,
    pub from: [u32; MOST_TRIGGERS],
}

// A trigger, and the text in which its names stand, 1 or 2.
#[derive(Clone, Copy)]
pub struct KeptRow {
    pub from: u32,
    pub trigger: Trigger,
}

// The triggers that are kept so far: the first `count` rows are in use. An array with a count beside it: joining puts nothing on the heap.
#[derive(Clone, Copy)]
pub struct Kept {
    pub rows: [KeptRow; MOST_KEPT],
    pub count: usize,
}

// The ranges of a text's topics, a start and a length for each; the first `count` words are in use, in an array as above.
#[derive(Clone, Copy)]
pub struct Topics {
    pub words: [u32; MOST_KEPT],
    pub count: usize,
}

#[tactic(auto, unfolding(crate::specs::Kept::kept_of, model::specs::Lists::padded))]
fn none_kept() -> Kept
    ensures { result ≡ kept_of [] }
{
    Kept {
        rows: [KeptRow {
            from: 0,
            trigger: Trigger::HttpTrigger,
        }; MOST_KEPT],
        count: 0,
    }
}

// Is a kept trigger the same as an entry whose names stand in text?
fn is_same(first: &[u8], second: &[u8], y: KeptRow, text: &[u8], x: Entry) -> bool
    ensures { result ≡ same_entry (text_of first.now second.now y.from) text.now (trigger_entry y.trigger) x }
{
    let own = if y.from == 1 { first } else { second };
    compare::same_entry(own, compare::trigger_entry(y.trigger), text, x)
}

// Is an entry whose names stand in text among the kept triggers?
fn is_kept(first: &[u8], second: &[u8], kept: Kept, text: &[u8], x: Entry) -> bool
    requires { kept.count ≤ most_kept }
    ensures { OfKept kept (λ l. result ≡ entry_among first.now second.now text.now x l) }
{
    for i in 0..kept.count {
        if is_same(first, second, kept.rows[i], text, x) {
            return true;
        }
    }
    false
}

// The kept triggers with one more, whose names stand in text, unless it is there already.
fn keep(first: &[u8], second: &[u8], kept: Kept, from: u32, text: &[u8], x: Trigger) -> Kept
    requires { (kept.count < most_kept) × (text_of first.now second.now from ≡ text.now) }
    ensures of_kept { OfKept kept (λ l. result ≡ kept_of (kept_with first.now second.now l (record { from = from; trigger = x }))) }
    ensures count_bound { result.count ≤ kept.count + 1 }
{
    let entry = compare::trigger_entry(x);
    if is_kept(first, second, kept, text, entry) {
        return kept;
    }
    let at = kept.count;
    let mut more = kept;
    more.rows[at] = KeptRow { from, trigger: x };
    more.count = at + 1;
    more
}

// The kept triggers with those of a text.
fn keep_all(first: &[u8], second: &[u8], kept: Kept, from: u32, text: &[u8], list: Triggers) -> Kept
    requires { (kept.count ≤ most_triggers) × Few list.rows list.count × (text_of first.now second.now from ≡ text.now) }
    ensures of_kept { OfKept kept (λ l. result ≡ kept_of (kept_all first.now second.now l (taken_from from (triggers_in list)))) }
    ensures count_bound { result.count ≤ kept.count + list.count }
{
    let mut more = kept;
    for i in 0..list.count {
        more = keep(first, second, more, from, text, list.rows[i].trigger);
    }
    more
}

// Are two lists of conditions the same, entry by entry?
fn same_conditions(first: &[u8], xs: Conditions, second: &[u8], ys: Conditions) -> bool
    requires { Few xs.rows xs.count × Few ys.rows ys.count }
    ensures { result ≡ same_conditions first.now second.now (conditions_in xs) (conditions_in ys) }
{
    if xs.count != ys.count {
        return false;
    }
    for i in 0..xs.count {
        if !compare::same_condition(first, xs.rows[i].condition, second, ys.rows[i].condition) {
            return false;
        }
    }
    true
}

// The ranges with that of one topic more, if there is one.
#[tactic(auto, using(crate::proofs::TopicLaws::topic_none))]
fn with_topic(topics: Topics, topic: Option<Name>) -> Topics
    requires { topics.count + 2 ≤ most_kept }
    ensures of_topics { OfTopics topics (λ names. result ≡ topics_held (names ++ names_by topic)) }
    ensures count_bound { result.count ≤ topics.count + 2 }
{
    match topic {
        None => topics,
        Some(name) => {
            let at = topics.count;
            let mut more = topics;
            more.words[at] = name.start;
            more.words[at + 1] = name.length;
            more.count = at + 2;
            more
        }
    }
}

// The ranges of the topics that triggers name.
fn topics_of(list: Triggers) -> Topics
    requires { Few list.rows list.count }
    ensures value { result ≡ topics_held (topic_names (triggers_in list)) }
    ensures count_le_most_kept { result.count ≤ most_kept }
{
    let mut topics = Topics {
        words: [0; MOST_KEPT],
        count: 0,
    };
    for i in 0..list.count {
        topics = with_topic(topics, reader::section::topic_of(list.rows[i].trigger));
    }
    topics
}

// A refusal, with the text that is refused.
#[tactic(auto, unfolding(crate::specs::Join::refused_join, model::specs::Lists::padded))]
fn refused(which: u32, answer: Answer) -> Joined
    ensures { result ≡ refused_join which answer }
{
    Joined {
        which,
        answer,
        from: [0; MOST_TRIGGERS],
    }
}

// A refusal of both texts together, at 0:0.
#[tactic(auto, unfolding(crate::specs::Join::refused_join))]
fn refused_both(number: u32) -> Joined
    ensures { result ≡ refused_join 0 (refused_with number 0 0 0) }
{
    refused(0, model::refused(number, 0, 0, 0))
}

// The answer with the kept triggers and these conditions, unless the triggers are too many.
#[tactic(auto, using(crate::proofs::KeptLaws::counted_many, crate::proofs::KeptLaws::counted_few))]
fn counted(kept: Kept, conditions: Conditions) -> Joined
    ensures { OfKept kept (λ l. OfConditions conditions (λ ys. result ≡ by_count l ys)) }
{
    if MOST_TRIGGERS < kept.count {
        return refused_both(52);
    }
    let row = |i: usize| TriggerRow {
        trigger: kept.rows[i].trigger,
    };
    let triggers = Triggers {
        rows: [row(0), row(1), row(2), row(3)],
        count: kept.count,
    };
    let answer = Answer {
        number: 0,
        line: 0,
        column: 0,
        detail: 0,
        triggers,
        conditions,
    };
    Joined {
        which: 0,
        answer,
        from: [
            kept.rows[0].from,
            kept.rows[1].from,
            kept.rows[2].from,
            kept.rows[3].from,
        ],
    }
}

// Joins two accepted answers.
fn both_read(first: &[u8], one: Answer, second: &[u8], two: Answer) -> Joined
    requires { Finished one × Finished two }
    ensures { result ≡ both_read first.now second.now one two }
{
    if !same_conditions(first, one.conditions, second, two.conditions) {
        return refused_both(51);
    }
    let kept = keep_all(first, second, none_kept(), 1, first, one.triggers);
    let more = keep_all(first, second, kept, 2, second, two.triggers);
    counted(more, one.conditions)
}

// Reads two rule texts with one name sheet and the lent topics of earlier rules, for a party, with its own primary adapter, and joins them. Each text has words of its own for the tokens' records. The answer, and
// each word of both at exit, are those of the definition of the whole call; said in other words, it is accepted exactly when both texts have readings, these have the same conditions in the same order, and their different triggers are at most four, with each of these
// once.
pub fn join(
    first: &[u8],
    second: &[u8],
    sheet: &[u8],
    lent: &[u8],
    party: u8,
    primary: u8,
    words: &mut [u32],
    others: &mut [u32],
) -> Joined
    ensures value { result ≡ (join_of party primary first.now second.now sheet.now (lent_topics lent.now) words.old others.old).joined }
    ensures first { words.new ≡ (join_of party primary first.now second.now sheet.now (lent_topics lent.now) words.old others.old).first_buffer }
    ensures second { others.new ≡ (join_of party primary first.now second.now sheet.now (lent_topics lent.now) words.old others.old).second_buffer }
    ensures exactly { ExactJoin party primary first.now second.now sheet.now (lent_topics lent.now) (length words.old) (length others.old) result }
{
    let one = reader::read::read(first, sheet, lent, party, primary, words);
    if one.number != 0 {
        return refused(1, one);
    }
    let topics = topics_of(one.triggers);
    let two = reader::read::read_after(
        Call {
            habit: Habit::Rule,
            party,
            primary,
        },
        second,
        sheet,
        lent,
        first,
        &topics.words[..topics.count],
        others,
    );
    if two.number != 0 {
        return refused(2, two);
    }
    both_read(first, one, second, two)
}
