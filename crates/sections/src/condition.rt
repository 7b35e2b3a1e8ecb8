// Conditions, ported from condition.rs.
ghost use Rattle.std.specs.Prelude.{◌≡◌};
ghost use Rattle.tokens.specs.Cursor.{tokens, to_taken};
ghost use Rattle.tokens.specs.Record.{capacity};
ghost use Rattle.sheet.specs.View.{view_of};
ghost use Rattle.language.specs.Range.{range_of};
ghost use Rattle.language.specs.Condition.{comparison_at, controller_condition, timer_condition, rule_condition, last_fired_condition, device_condition, sun_of, sun_condition, time_to, time_condition, day_condition, group_condition, hcl_of, hcl_condition, lamp_property_of, lamp_judged, lamp_compared, lamp_point, lamp_state, lamp_condition, light_than, input_state, input_condition, text_operand, operand_at, var_compared, var_condition, condition_by, condition_at};

use crate::{expr, first, name, timeval, trigger, words};
use model::{
    Comparison, Condition, Hcl, InputRef, LampProperty, Name, Operand, Ref, Sun, TimeBound, Value,
};
use references::{args, refs};
use sheet::View;
use tokens::cursor::{Cursor, Taken, Tokens};
use tokens::kind;

// The longest text of a var, in bytes.
const MAX_VAR_TEXT: usize = 16;

// What the n-th word of a pair stands for, here and below.
#[tactic(auto, unfolding(language::specs::Condition::sun_of))]
fn sun_by(n: u32) -> Sun
    ensures { result ≡ sun_of n }
{
    match n {
        0 => Sun::Up,
        _ => Sun::Down,
    }
}

#[tactic(auto, unfolding(language::specs::Condition::hcl_of))]
fn hcl_by(n: u32) -> Hcl
    ensures { result ≡ hcl_of n }
{
    match n {
        0 => Hcl::Enabled,
        _ => Hcl::Overridden,
    }
}

#[tactic(auto, unfolding(language::specs::Condition::lamp_property_of))]
fn lamp_property(n: u32) -> LampProperty
    ensures { result ≡ lamp_property_of n }
{
    match n {
        0 => LampProperty::Level,
        _ => LampProperty::Cct,
    }
}

// One of ==, !=, >=, <=, > and <; else 20. Whatever token is there has its own kind, so accept answers the cursor behind it.
#[tactic(auto, unfolding(language::specs::Condition::comparison_at, tokens::specs::Cursor::to_taken, language::specs::Condition::comparison_by, tokens::specs::Cursor::tokens, tokens::specs::Cursor::accepted))]
pub fn comparison_at(c: Cursor, t: &Tokens<'_>) -> Taken<Comparison>
    ensures { result ≡ to_taken (comparison_at (tokens t.now.text.now t.now.words.now) c.index) }
{
    let i = c.index;
    let kind = c.peek(t.words);
    let Some(behind) = c.accept(t, kind) else {
        return Err(tokens::cursor::refuse(20, i));
    };
    match kind {
        kind::EQ => Ok((Comparison::Eq, behind)),
        kind::NE => Ok((Comparison::Ne, behind)),
        kind::GE => Ok((Comparison::Ge, behind)),
        kind::LE => Ok((Comparison::Le, behind)),
        kind::GT => Ok((Comparison::Gt, behind)),
        kind::LT => Ok((Comparison::Lt, behind)),
        _ => Err(tokens::cursor::refuse(20, i)),
    }
}

// controller is active.
#[tactic(auto, unfolding(language::specs::Condition::controller_condition, tokens::specs::Cursor::to_taken))]
fn controller_condition(c: Cursor, t: &Tokens<'_>) -> Taken<Condition>
    ensures { result ≡ to_taken (controller_condition (tokens t.now.text.now t.now.words.now) c.index) }
{
    let (_, behind) = c.expect_phrase(t, b"is active")?;
    Ok((Condition::ControllerActive, behind))
}

// timer Q is running.
#[tactic(auto, unfolding(language::specs::Condition::timer_condition, tokens::specs::Cursor::to_taken))]
fn timer_condition(c: Cursor, t: &Tokens<'_>) -> Taken<Condition>
    ensures { result ≡ to_taken (timer_condition (tokens t.now.text.now t.now.words.now) (range_of t.now.words.now) c.index) }
{
    let (i, behind) = words::named_phrase(c, t, b"is running")?;
    Ok((Condition::TimerRunning(name::range(t.words, i)), behind))
}

// rule Q is enabled.
#[tactic(auto, unfolding(language::specs::Condition::rule_condition, tokens::specs::Cursor::to_taken))]
fn rule_condition(c: Cursor, t: &Tokens<'_>) -> Taken<Condition>
    ensures { result ≡ to_taken (rule_condition (tokens t.now.text.now t.now.words.now) (range_of t.now.words.now) c.index) }
{
    let (i, behind) = words::named_phrase(c, t, b"is enabled")?;
    Ok((Condition::RuleEnabled(name::range(t.words, i)), behind))
}

// last_fired Q older than a duration.
#[tactic(auto, unfolding(language::specs::Condition::last_fired_condition, tokens::specs::Cursor::to_taken))]
fn last_fired_condition(c: Cursor, t: &Tokens<'_>) -> Taken<Condition>
    ensures { result ≡ to_taken (last_fired_condition (tokens t.now.text.now t.now.words.now) (range_of t.now.words.now) c.index) }
{
    let (i, next) = words::named_phrase(c, t, b"older than")?;
    let (ms, behind) = next.expect_duration(t)?;
    Ok((
        Condition::LastFiredOlderThan(name::range(t.words, i), ms),
        behind,
    ))
}

// device R is online.
#[tactic(auto, unfolding(language::specs::Condition::device_condition, tokens::specs::Cursor::to_taken))]
fn device_condition(c: Cursor, t: &Tokens<'_>, view: &View<'_>) -> Taken<Condition>
    ensures { result ≡ to_taken (device_condition (tokens t.now.text.now t.now.words.now) (view_of view.now.settings view.now.sheet.now) c.index) }
{
    let (device, next) = refs::device_ref(c, t, view)?;
    let (_, behind) = next.expect_phrase(t, b"is online")?;
    Ok((Condition::DeviceOnline(device), behind))
}

// sun is up or down.
#[tactic(auto, unfolding(language::specs::Condition::sun_condition, tokens::specs::Cursor::to_taken))]
fn sun_condition(c: Cursor, t: &Tokens<'_>) -> Taken<Condition>
    ensures { result ≡ to_taken (sun_condition (tokens t.now.text.now t.now.words.now) c.index) }
{
    let (n, behind) = c.expect_phrase_choice(t, b"is", b"up down")?;
    Ok((Condition::SunIs(sun_by(n)), behind))
}

#[tactic(auto, unfolding(language::specs::Condition::time_to, tokens::specs::Cursor::to_taken))]
fn time_to(c: Cursor, t: &Tokens<'_>, start: TimeBound) -> Taken<Condition>
    ensures { result ≡ to_taken (time_to (tokens t.now.text.now t.now.words.now) start c.index) }
{
    let (_, next) = c.expect(t, kind::POINTS)?;
    let (end, behind) = timeval::time_bound(next, t)?;
    Ok((Condition::TimeInRange(start, end), behind))
}

// time in a bound, two points and a bound.
#[tactic(auto, unfolding(language::specs::Condition::time_condition, tokens::specs::Cursor::to_taken))]
fn time_condition(c: Cursor, t: &Tokens<'_>) -> Taken<Condition>
    ensures { result ≡ to_taken (time_condition (tokens t.now.text.now t.now.words.now) c.index) }
{
    let (_, next) = c.expect_kw(t, b"in")?;
    let (start, behind) = timeval::time_bound(next, t)?;
    time_to(behind, t, start)
}

// day in a day set.
#[tactic(auto, unfolding(language::specs::Condition::day_condition, tokens::specs::Cursor::to_taken))]
fn day_condition(c: Cursor, t: &Tokens<'_>) -> Taken<Condition>
    ensures { result ≡ to_taken (day_condition (tokens t.now.text.now t.now.words.now) (capacity t.now.words.now) c.index) }
{
    let (_, next) = c.expect_kw(t, b"in")?;
    let (days, behind) = days::day_set(next, t)?;
    Ok((Condition::DayIn(days), behind))
}

// group R any_on or all_off.
#[tactic(auto, unfolding(language::specs::Condition::group_condition, tokens::specs::Cursor::to_taken))]
fn group_condition(c: Cursor, t: &Tokens<'_>, view: &View<'_>) -> Taken<Condition>
    ensures { result ≡ to_taken (group_condition (tokens t.now.text.now t.now.words.now) (view_of view.now.settings view.now.sheet.now) c.index) }
{
    let (group, next) = refs::group_ref(c, t, view)?;
    let (n, behind) = next.expect_choice(t, b"any_on all_off", 21)?;
    Ok((
        Condition::GroupState(group, trigger::aggregate_by(n)),
        behind,
    ))
}

// hcl is enabled or overridden for TARGET.
#[tactic(auto, unfolding(language::specs::Condition::hcl_condition, tokens::specs::Cursor::to_taken))]
fn hcl_condition(c: Cursor, t: &Tokens<'_>, view: &View<'_>) -> Taken<Condition>
    ensures { result ≡ to_taken (hcl_condition (tokens t.now.text.now t.now.words.now) (view_of view.now.settings view.now.sheet.now) c.index) }
{
    let (n, next) = c.expect_phrase_choice(t, b"is", b"enabled overridden")?;
    let (light, behind) = words::target_for(next, t, view)?;
    Ok((Condition::HclState(light, hcl_by(n)), behind))
}

// A lamp's property, whose word stands at the token p, judged after the comparison and the value; another than level and cct is refused with 21.
#[tactic(auto, unfolding(language::specs::Condition::lamp_judged, tokens::specs::Cursor::to_taken))]
fn lamp_judged(
    behind: Cursor,
    t: &Tokens<'_>,
    lamp: Ref,
    p: usize,
    comparison: Comparison,
    value: Value,
) -> Taken<Condition>
    ensures { result ≡ to_taken (lamp_judged (tokens t.now.text.now t.now.words.now) lamp p comparison value behind.index) }
{
    let word = Cursor { index: p };
    let (n, _) = word.expect_choice(t, b"level cct", 21)?;
    Ok((
        Condition::LampCompare(lamp, lamp_property(n), comparison, value),
        behind,
    ))
}

#[tactic(auto, unfolding(language::specs::Condition::lamp_compared, tokens::specs::Cursor::to_taken))]
fn lamp_compared(
    c: Cursor,
    t: &Tokens<'_>,
    view: &View<'_>,
    lamp: Ref,
    p: usize,
) -> Taken<Condition>
    ensures { result ≡ to_taken (lamp_compared (tokens t.now.text.now t.now.words.now) (view_of view.now.settings view.now.sheet.now) (range_of t.now.words.now) (capacity t.now.words.now) lamp p c.index) }
{
    let (comparison, next) = comparison_at(c, t)?;
    let (value, behind) = expr::value_expr(next, t, view)?;
    lamp_judged(behind, t, lamp, p, comparison, value)
}

#[tactic(auto, unfolding(language::specs::Condition::lamp_point, tokens::specs::Cursor::to_taken))]
fn lamp_point(c: Cursor, t: &Tokens<'_>, view: &View<'_>, lamp: Ref) -> Taken<Condition>
    ensures { result ≡ to_taken (lamp_point (tokens t.now.text.now t.now.words.now) (view_of view.now.settings view.now.sheet.now) (range_of t.now.words.now) (capacity t.now.words.now) lamp c.index) }
{
    let (p, behind) = words::property_word(c, t)?;
    lamp_compared(behind, t, view, lamp, p)
}

#[tactic(auto, unfolding(language::specs::Condition::lamp_state, tokens::specs::Cursor::to_taken, tokens::specs::Cursor::accepted))]
fn lamp_state(c: Cursor, t: &Tokens<'_>, view: &View<'_>, lamp: Ref) -> Taken<Condition>
    ensures { result ≡ to_taken (lamp_state (tokens t.now.text.now t.now.words.now) (view_of view.now.settings view.now.sheet.now) (range_of t.now.words.now) (capacity t.now.words.now) lamp c.index) }
{
    if let Some(next) = c.accept_kw(t, b"is") {
        let (n, behind) = next.expect_choice(t, b"on off", 21)?;
        return Ok((Condition::LampIs(lamp, trigger::power_by(n)), behind));
    }
    lamp_point(c, t, view, lamp)
}

// lamp R is on or off, or its level or cct compared with VALUE.
#[tactic(auto, unfolding(language::specs::Condition::lamp_condition, tokens::specs::Cursor::to_taken))]
fn lamp_condition(c: Cursor, t: &Tokens<'_>, view: &View<'_>) -> Taken<Condition>
    ensures { result ≡ to_taken (lamp_condition (tokens t.now.text.now t.now.words.now) (view_of view.now.settings view.now.sheet.now) (range_of t.now.words.now) (capacity t.now.words.now) c.index) }
{
    let (lamp, behind) = refs::lamp_ref(c, t, view)?;
    lamp_state(behind, t, view, lamp)
}

#[tactic(auto, unfolding(language::specs::Condition::light_than, tokens::specs::Cursor::to_taken))]
fn light_than(c: Cursor, t: &Tokens<'_>, view: &View<'_>, input: InputRef) -> Taken<Condition>
    ensures { result ≡ to_taken (light_than (tokens t.now.text.now t.now.words.now) (view_of view.now.settings view.now.sheet.now) (range_of t.now.words.now) (capacity t.now.words.now) input c.index) }
{
    let (_, pointed) = c.expect_point_phrase(t, b"light")?;
    let (n, next) = pointed.expect_choice(t, b"above below", 21)?;
    let (value, behind) = expr::value_expr(next, t, view)?;
    Ok((
        Condition::InputLight(input, trigger::crossing_by(n), value),
        behind,
    ))
}

#[tactic(auto, unfolding(language::specs::Condition::input_state, tokens::specs::Cursor::to_taken, tokens::specs::Cursor::accepted))]
fn input_state(c: Cursor, t: &Tokens<'_>, view: &View<'_>, input: InputRef) -> Taken<Condition>
    ensures { result ≡ to_taken (input_state (tokens t.now.text.now t.now.words.now) (view_of view.now.settings view.now.sheet.now) (range_of t.now.words.now) (capacity t.now.words.now) input c.index) }
{
    if let Some(next) = c.accept_kw(t, b"is") {
        let (n, behind) = next.expect_choice(t, b"occupied vacant", 21)?;
        return Ok((
            Condition::InputOccupancy(input, trigger::occupancy_by(n)),
            behind,
        ));
    }
    light_than(c, t, view, input)
}

// input ARGS, one instance, is occupied or vacant, or its light above or below VALUE.
#[tactic(auto, unfolding(language::specs::Condition::input_condition, tokens::specs::Cursor::to_taken))]
fn input_condition(c: Cursor, t: &Tokens<'_>, view: &View<'_>) -> Taken<Condition>
    ensures { result ≡ to_taken (input_condition (tokens t.now.text.now t.now.words.now) (view_of view.now.settings view.now.sheet.now) (range_of t.now.words.now) (capacity t.now.words.now) c.index) }
{
    let (input, behind) = args::input_ref(c, t, view)?;
    input_state(behind, t, view, input)
}

// A string of at most 16 bytes, perhaps empty; else 24.
#[tactic(auto, unfolding(language::specs::Condition::text_operand, tokens::specs::Cursor::to_taken))]
fn text_operand(c: Cursor, t: &Tokens<'_>) -> Taken<Operand>
    ensures { result ≡ to_taken (text_operand (tokens t.now.text.now t.now.words.now) (range_of t.now.words.now) c.index) }
{
    let i = c.index;
    let (_, behind) = c.expect_string(t)?;
    let bytes = t.bytes(i);
    if MAX_VAR_TEXT < bytes.len() {
        return Err(tokens::cursor::refuse(24, i));
    }
    Ok((Operand::Text(name::range(t.words, i)), behind))
}

// A string, or VALUE.
#[tactic(auto, unfolding(language::specs::Condition::operand_at, tokens::specs::Cursor::to_taken))]
fn var_operand(c: Cursor, t: &Tokens<'_>, view: &View<'_>) -> Taken<Operand>
    ensures { result ≡ to_taken (operand_at (tokens t.now.text.now t.now.words.now) (view_of view.now.settings view.now.sheet.now) (range_of t.now.words.now) (capacity t.now.words.now) c.index) }
{
    if c.peek_is(t, kind::STRING) {
        return text_operand(c, t);
    }
    let (value, behind) = expr::value_expr(c, t, view)?;
    Ok((Operand::Number(value), behind))
}

#[tactic(auto, unfolding(language::specs::Condition::var_compared, tokens::specs::Cursor::to_taken))]
fn var_compared(c: Cursor, t: &Tokens<'_>, view: &View<'_>, name: Name) -> Taken<Condition>
    ensures { result ≡ to_taken (var_compared (tokens t.now.text.now t.now.words.now) (view_of view.now.settings view.now.sheet.now) (range_of t.now.words.now) (capacity t.now.words.now) name c.index) }
{
    let (comparison, next) = comparison_at(c, t)?;
    let (operand, behind) = var_operand(next, t, view)?;
    Ok((Condition::VarCompare(name, comparison, operand), behind))
}

// var Q compared with VALUE or a string.
#[tactic(auto, unfolding(language::specs::Condition::var_condition, tokens::specs::Cursor::to_taken))]
fn var_condition(c: Cursor, t: &Tokens<'_>, view: &View<'_>) -> Taken<Condition>
    ensures { result ≡ to_taken (var_condition (tokens t.now.text.now t.now.words.now) (view_of view.now.settings view.now.sheet.now) (range_of t.now.words.now) (capacity t.now.words.now) c.index) }
{
    let (i, behind) = refs::quoted_name(c, t)?;
    var_compared(behind, t, view, name::range(t.words, i))
}

// The condition with the n-th first word.
#[tactic(auto, unfolding(language::specs::Condition::condition_by, tokens::specs::Cursor::to_taken))]
fn condition_by(n: u32, behind: Cursor, t: &Tokens<'_>, view: &View<'_>) -> Taken<Condition>
    ensures { result ≡ to_taken (condition_by (tokens t.now.text.now t.now.words.now) (view_of view.now.settings view.now.sheet.now) (range_of t.now.words.now) (capacity t.now.words.now) n behind.index) }
{
    // One match on the place of a word, as the definition has it: a table of functions would say no more.
    match n {
        0 => return time_condition(behind, t),
        1 => return sun_condition(behind, t),
        2 => return lamp_condition(behind, t, view),
        3 => return group_condition(behind, t, view),
        4 => return input_condition(behind, t, view),
        5 => return hcl_condition(behind, t, view),
        6 => return device_condition(behind, t, view),
        7 => return rule_condition(behind, t),
        8 => return last_fired_condition(behind, t),
        9 => return timer_condition(behind, t),
        10 => return controller_condition(behind, t),
        11 => return var_condition(behind, t, view),
        _ => return day_condition(behind, t),
    }
}

// A condition, by its first word: no word is refused with 20, another with 21.
#[tactic(auto, unfolding(language::specs::Condition::condition_at, tokens::specs::Cursor::to_taken))]
pub fn condition_at(c: Cursor, t: &Tokens<'_>, view: &View<'_>) -> Taken<Condition>
    ensures { result ≡ to_taken (condition_at (tokens t.now.text.now t.now.words.now) (view_of view.now.settings view.now.sheet.now) (range_of t.now.words.now) (capacity t.now.words.now) c.index) }
{
    let (n, behind) = first::condition_word(c, t)?;
    condition_by(n, behind, t, view)
}
