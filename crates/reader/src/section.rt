// The `when` and `if` sections, ported from parser/mod.rs.
ghost use Rattle.std.specs.Prelude.{◌≡◌, [], ◌∷◌, ◌++◌};
ghost use Rattle.text.specs.Literal.{ascii};
ghost use Rattle.tokens.specs.Result.{ok, bind};
ghost use Rattle.tokens.specs.Cursor.{tokens, to_taken};
ghost use Rattle.tokens.specs.Record.{capacity};
ghost use Rattle.sheet.specs.View.{view_of};
ghost use Rattle.language.specs.Range.{range_of};
ghost use Rattle.topics.specs.Ranges.{with_topic, name_in, topics_in, lent_with};
ghost use Rattle.language.specs.Topics.{topic_name, topic_of};
ghost use Rattle.language.specs.Read.{topics_with};
ghost use Rattle.language.specs.Condition.{condition_at};
ghost use Rattle.language.specs.Section.{repeated, trigger_named, when_section, if_section, rule_at};
ghost use Rattle.reader.specs.Parts.{to_whens, to_ifs, to_rule};

use crate::parts;
use crate::parts::{Lent, Rule};
use model::{Condition, ConditionRow, Conditions, Name, Trigger, TriggerRow, Triggers};
use sections::{condition, trigger};
use sheet::View;
use tokens::cursor::{Cursor, Refusal, Taken, Tokens};
use topics::ranges::Ranges;
use topics::{limit, ranges};

// The topic that a trigger names, if it names one.
#[tactic(auto, unfolding(language::specs::Topics::topic_name))]
pub fn topic_of(x: Trigger) -> Option<Name>
    ensures { result ≡ topic_name x }
{
    match x {
        Trigger::MqttMessage(name) => Some(name),
        _ => None,
    }
}

// The topics with that of one trigger more.
fn with_trigger(named: Ranges, x: Trigger) -> Ranges
    ensures { result ≡ with_topic named (topic_name x) }
{
    ranges::with_topic(named, topic_of(x))
}

// The trigger at c, behind others that named these topics. One topic too many is refused with 66 at the trigger's first word.
#[tactic(auto, unfolding(language::specs::Section::trigger_named, language::specs::Topics::topic_of, tokens::specs::Cursor::to_taken))]
fn trigger_named(
    c: Cursor,
    t: &Tokens<'_>,
    view: &View<'_>,
    lent: &Lent<'_>,
    named: Ranges,
) -> Taken<Trigger>
    ensures { result ≡ to_taken (trigger_named (tokens t.now.text.now t.now.words.now) (view_of view.now.settings view.now.sheet.now) (range_of t.now.words.now) (topics_with t.now.text.now (lent_with lent.now.lines.now lent.now.first.now lent.now.earlier.now)) (capacity t.now.words.now) (topics_in t.now.text.now named) c.index) }
{
    let (x, behind) = trigger::trigger_at(c, t, view)?;
    if limit::fits_behind(
        lent.lines,
        lent.first,
        lent.earlier,
        t.text,
        named,
        topic_of(x),
    ) {
        return Ok((x, behind));
    }
    Err(tokens::cursor::refuse(66, c.index))
}

// As many triggers as there are `when`s; a fifth is refused with 37. Each is written to its place in the list, which is not copied.
fn whens(c: Cursor, t: &Tokens<'_>, view: &View<'_>, lent: &Lent<'_>) -> Taken<Triggers>
    ensures { result ≡ to_whens (repeated (tokens t.now.text.now t.now.words.now) (ascii "when") 37 (trigger_named (tokens t.now.text.now t.now.words.now) (view_of view.now.settings view.now.sheet.now) (range_of t.now.words.now) (topics_with t.now.text.now (lent_with lent.now.lines.now lent.now.first.now lent.now.earlier.now)) (capacity t.now.words.now)) (λ named x. named ++ topic_of (name_in t.now.text.now) x) [] 4 c.index) }
{
    let mut list = model::no_triggers();
    let mut named = ranges::no_ranges();
    let mut p = c;
    while let Some(next) = p.accept_kw(t, b"when") {
        if 4 <= list.count {
            return Err(tokens::cursor::refuse(37, p.index));
        }
        let (x, behind) = trigger_named(next, t, view, lent, named)?;
        named = with_trigger(named, x);
        let at = list.count;
        list.rows[at] = TriggerRow { trigger: x };
        list.count = at + 1;
        p = behind;
    }
    Ok((list, p))
}

// The `when` section: no `when` at all is refused with 38.
#[tactic(auto, unfolding(language::specs::Section::when_section, crate::specs::Parts::to_whens))]
pub fn when_section(c: Cursor, t: &Tokens<'_>, view: &View<'_>, lent: &Lent<'_>) -> Taken<Triggers>
    ensures { result ≡ to_whens (when_section (tokens t.now.text.now t.now.words.now) (view_of view.now.settings view.now.sheet.now) (range_of t.now.words.now) (topics_with t.now.text.now (lent_with lent.now.lines.now lent.now.first.now lent.now.earlier.now)) (capacity t.now.words.now) c.index) }
{
    if c.peek_kw(t, b"when") {
        return whens(c, t, view, lent);
    }
    Err(tokens::cursor::refuse(38, c.index))
}

// The first condition, and as many more as there are `and`s; a fifth is refused with 39.
fn ands(c: Cursor, t: &Tokens<'_>, view: &View<'_>, first: Condition) -> Taken<Conditions>
    ensures { result ≡ to_ifs (bind (repeated (tokens t.now.text.now t.now.words.now) (ascii "and") 39 (λ u. condition_at (tokens t.now.text.now t.now.words.now) (view_of view.now.settings view.now.sheet.now) (range_of t.now.words.now) (capacity t.now.words.now)) (λ u y. u) (tt {0}) 3 c.index) (λ ys l. ok (first ∷ ys) l)) }
{
    let mut list = parts::one_condition(first);
    let mut p = c;
    while let Some(next) = p.accept_kw(t, b"and") {
        if 4 <= list.count {
            return Err(tokens::cursor::refuse(39, p.index));
        }
        let (y, behind) = condition::condition_at(next, t, view)?;
        let at = list.count;
        list.rows[at] = ConditionRow { condition: y };
        list.count = at + 1;
        p = behind;
    }
    Ok((list, p))
}

// The `if` section, which may be absent.
#[tactic(auto, unfolding(language::specs::Section::if_section, crate::specs::Parts::to_ifs, tokens::specs::Cursor::to_taken, tokens::specs::Cursor::accepted))]
pub fn if_section(c: Cursor, t: &Tokens<'_>, view: &View<'_>) -> Taken<Conditions>
    ensures { result ≡ to_ifs (if_section (tokens t.now.text.now t.now.words.now) (view_of view.now.settings view.now.sheet.now) (range_of t.now.words.now) (capacity t.now.words.now) c.index) }
{
    let Some(next) = c.accept_kw(t, b"if") else {
        return Ok((model::no_conditions(), c));
    };
    let (y, behind) = condition::condition_at(next, t, view)?;
    ands(behind, t, view, y)
}

// The whole rule: both lists, if the text is at an end behind them; else 41.
#[tactic(auto, unfolding(language::specs::Section::rule_at, language::specs::Section::at_end, crate::specs::Parts::to_rule, crate::specs::Parts::to_whens, crate::specs::Parts::to_ifs, tokens::specs::Cursor::tokens))]
pub fn rule(t: &Tokens<'_>, view: &View<'_>, lent: &Lent<'_>) -> Result<Rule, Refusal>
    ensures { result ≡ to_rule (rule_at (tokens t.now.text.now t.now.words.now) (view_of view.now.settings view.now.sheet.now) (range_of t.now.words.now) (topics_with t.now.text.now (lent_with lent.now.lines.now lent.now.first.now lent.now.earlier.now)) (capacity t.now.words.now)) }
{
    let (triggers, next) = when_section(Cursor::new(), t, view, lent)?;
    let (conditions, end) = if_section(next, t, view)?;
    if end.peek(t.words) == 0 {
        return Ok(Rule {
            triggers,
            conditions,
        });
    }
    Err(tokens::cursor::refuse(41, end.index))
}
