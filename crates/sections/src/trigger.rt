// Triggers, ported from trigger.rs.
ghost use Rattle.std.specs.Prelude.{◌≡◌};
ghost use Rattle.tokens.specs.Cursor.{tokens, to_taken};
ghost use Rattle.tokens.specs.Record.{capacity};
ghost use Rattle.sheet.specs.View.{view_of};
ghost use Rattle.language.specs.Range.{range_of};
ghost use Rattle.language.specs.Trigger.{power_of, crossing_of, occupancy_of, aggregate_of, online_of, override_of, timer_trigger, rule_trigger, controller_change, controller_trigger, http_trigger, topic_at, mqtt_trigger, every_trigger, at_on, at_bound, at_trigger, scene_closed, scene_trigger, device_trigger, group_trigger, hcl_trigger, level_cross, lamp_change, lamp_trigger, input_device_change, input_device_trigger, raw_data, raw_event, event_of, event_at, input_event, input_becomes, light_cross, position_change, property_trigger, point_trigger, input_change, input_trigger, trigger_by, trigger_at};

use crate::{first, name, timeval, words};
use model::{
    Aggregate, Crossing, Days, Event, InputRef, Occupancy, Online, Override, Power, Ref, Selector,
    TimeBound, Trigger,
};
use references::{args, refs};
use sheet::View;
use tokens::cursor::{Cursor, Taken, Tokens};
use tokens::kind;
use topics::topic;

// The shortest period, in milliseconds.
const LEAST_PERIOD: u32 = 1000;

// The highest scene, level and event information.
const MAX_SCENE: u32 = 15;

const MAX_LEVEL: u32 = 254;

const MAX_EVENT_INFORMATION: u32 = 1023;

// What the n-th word of a pair stands for, here and below.
#[tactic(auto, unfolding(language::specs::Trigger::power_of))]
pub fn power_by(n: u32) -> Power
    ensures { result ≡ power_of n }
{
    match n {
        0 => Power::On,
        _ => Power::Off,
    }
}

#[tactic(auto, unfolding(language::specs::Trigger::crossing_of))]
pub fn crossing_by(n: u32) -> Crossing
    ensures { result ≡ crossing_of n }
{
    match n {
        0 => Crossing::Above,
        _ => Crossing::Below,
    }
}

#[tactic(auto, unfolding(language::specs::Trigger::occupancy_of))]
pub fn occupancy_by(n: u32) -> Occupancy
    ensures { result ≡ occupancy_of n }
{
    match n {
        0 => Occupancy::Occupied,
        _ => Occupancy::Vacant,
    }
}

#[tactic(auto, unfolding(language::specs::Trigger::aggregate_of))]
pub fn aggregate_by(n: u32) -> Aggregate
    ensures { result ≡ aggregate_of n }
{
    match n {
        0 => Aggregate::AnyOn,
        _ => Aggregate::AllOff,
    }
}

#[tactic(auto, unfolding(language::specs::Trigger::online_of))]
fn online_by(n: u32) -> Online
    ensures { result ≡ online_of n }
{
    match n {
        0 => Online::GoesOffline,
        _ => Online::ComesOnline,
    }
}

#[tactic(auto, unfolding(language::specs::Trigger::override_of))]
fn override_by(n: u32) -> Override
    ensures { result ≡ override_of n }
{
    match n {
        0 => Override::Starts,
        _ => Override::Clears,
    }
}

#[tactic(auto, unfolding(language::specs::Trigger::timer_trigger, tokens::specs::Cursor::to_taken))]
fn timer_trigger(c: Cursor, t: &Tokens<'_>) -> Taken<Trigger>
    ensures { result ≡ to_taken (timer_trigger (tokens t.now.text.now t.now.words.now) (range_of t.now.words.now) c.index) }
{
    let (i, behind) = words::named_phrase(c, t, b"fires")?;
    Ok((Trigger::TimerFires(name::range(t.words, i)), behind))
}

#[tactic(auto, unfolding(language::specs::Trigger::rule_trigger, tokens::specs::Cursor::to_taken))]
fn rule_trigger(c: Cursor, t: &Tokens<'_>) -> Taken<Trigger>
    ensures { result ≡ to_taken (rule_trigger (tokens t.now.text.now t.now.words.now) (range_of t.now.words.now) c.index) }
{
    let (i, behind) = words::named_phrase(c, t, b"fails")?;
    Ok((Trigger::RuleFails(name::range(t.words, i)), behind))
}

#[tactic(auto, unfolding(language::specs::Trigger::controller_change))]
fn controller_change(n: u32) -> Trigger
    ensures { result ≡ controller_change n }
{
    match n {
        0 => Trigger::ControllerStarts,
        _ => Trigger::ControllerBecomesActive,
    }
}

#[tactic(auto, unfolding(language::specs::Trigger::controller_trigger, tokens::specs::Cursor::to_taken))]
fn controller_trigger(c: Cursor, t: &Tokens<'_>) -> Taken<Trigger>
    ensures { result ≡ to_taken (controller_trigger (tokens t.now.text.now t.now.words.now) c.index) }
{
    let (n, behind) = c.expect_either(t, b"starts", b"becomes active")?;
    Ok((controller_change(n), behind))
}

#[tactic(auto, unfolding(language::specs::Trigger::http_trigger, tokens::specs::Cursor::to_taken))]
fn http_trigger(c: Cursor, t: &Tokens<'_>) -> Taken<Trigger>
    ensures { result ≡ to_taken (http_trigger (tokens t.now.text.now t.now.words.now) c.index) }
{
    let (_, behind) = c.expect_kw(t, b"trigger")?;
    Ok((Trigger::HttpTrigger, behind))
}

// A quoted topic: an empty or forbidden one is refused with 64, one over 48 bytes with 65.
#[tactic(auto, unfolding(language::specs::Trigger::topic_at, tokens::specs::Cursor::to_taken))]
fn topic_at(c: Cursor, t: &Tokens<'_>) -> Taken<u32>
    ensures { result ≡ to_taken (topic_at (tokens t.now.text.now t.now.words.now) c.index) }
{
    let i = c.index;
    let (n, behind) = c.expect_string(t)?;
    let number = topic::topic_number(t.bytes(i));
    if number == 0 {
        return Ok((n, behind));
    }
    Err(tokens::cursor::refuse(number, i))
}

// `is` behind the topic is refused with 40.
#[tactic(auto, unfolding(language::specs::Trigger::mqtt_trigger, tokens::specs::Cursor::to_taken))]
fn mqtt_trigger(c: Cursor, t: &Tokens<'_>) -> Taken<Trigger>
    ensures { result ≡ to_taken (mqtt_trigger (tokens t.now.text.now t.now.words.now) (range_of t.now.words.now) c.index) }
{
    let i = c.index;
    let (_, behind) = topic_at(c, t)?;
    if behind.peek_kw(t, b"is") {
        return Err(tokens::cursor::refuse(40, behind.index));
    }
    Ok((Trigger::MqttMessage(name::range(t.words, i)), behind))
}

// A period below one second is refused with 35.
#[tactic(auto, unfolding(language::specs::Trigger::every_trigger, tokens::specs::Cursor::to_taken))]
fn every_trigger(c: Cursor, t: &Tokens<'_>) -> Taken<Trigger>
    ensures { result ≡ to_taken (every_trigger (tokens t.now.text.now t.now.words.now) c.index) }
{
    let i = c.index;
    let (ms, behind) = c.expect_duration(t)?;
    if ms < LEAST_PERIOD {
        return Err(tokens::cursor::refuse(35, i));
    }
    Ok((Trigger::Every(ms), behind))
}

// A time of day or a solar event, on these days.
#[tactic(auto, unfolding(language::specs::Trigger::at_on))]
fn at_on(bound: TimeBound, days: Days) -> Trigger
    ensures { result ≡ at_on bound days }
{
    match bound {
        TimeBound::Clock(m) => return Trigger::AtTime(m, days),
        TimeBound::Solar(event, offset) => return Trigger::AtSolar(event, offset, days),
    }
}

// The days behind a time bound.
#[tactic(auto, unfolding(language::specs::Trigger::at_bound, tokens::specs::Cursor::to_taken))]
fn at_bound(c: Cursor, t: &Tokens<'_>, bound: TimeBound) -> Taken<Trigger>
    ensures { result ≡ to_taken (at_bound (tokens t.now.text.now t.now.words.now) (capacity t.now.words.now) bound c.index) }
{
    let (days, behind) = days::on_days(c, t)?;
    Ok((at_on(bound, days), behind))
}

#[tactic(auto, unfolding(language::specs::Trigger::at_trigger, tokens::specs::Cursor::to_taken))]
fn at_trigger(c: Cursor, t: &Tokens<'_>) -> Taken<Trigger>
    ensures { result ≡ to_taken (at_trigger (tokens t.now.text.now t.now.words.now) (capacity t.now.words.now) c.index) }
{
    let (bound, behind) = timeval::time_bound(c, t)?;
    at_bound(behind, t, bound)
}

// The rest of a scene behind its number.
#[tactic(auto, unfolding(language::specs::Trigger::scene_closed, tokens::specs::Cursor::to_taken))]
fn scene_closed(c: Cursor, t: &Tokens<'_>, view: &View<'_>, scene: u32) -> Taken<Trigger>
    ensures { result ≡ to_taken (scene_closed (tokens t.now.text.now t.now.words.now) (view_of view.now.settings view.now.sheet.now) scene c.index) }
{
    let (scope, next) = refs::adapter_clause(c, t, view)?;
    let (_, closed) = next.expect(t, kind::CLOSE)?;
    let (_, behind) = closed.expect_kw(t, b"recalled")?;
    let adapter = refs::scope_or_primary(view, scope);
    Ok((Trigger::SceneRecalled(adapter, scene), behind))
}

#[tactic(auto, unfolding(language::specs::Trigger::scene_trigger, model::specs::Limits::last_scene, tokens::specs::Cursor::to_taken))]
fn scene_trigger(c: Cursor, t: &Tokens<'_>, view: &View<'_>) -> Taken<Trigger>
    ensures { result ≡ to_taken (scene_trigger (tokens t.now.text.now t.now.words.now) (view_of view.now.settings view.now.sheet.now) c.index) }
{
    let (_, next) = c.expect(t, kind::OPEN)?;
    let (n, behind) = next.expect_int_in(t, 0, MAX_SCENE)?;
    scene_closed(behind, t, view, n)
}

#[tactic(auto, unfolding(language::specs::Trigger::device_trigger, tokens::specs::Cursor::to_taken))]
fn device_trigger(c: Cursor, t: &Tokens<'_>, view: &View<'_>) -> Taken<Trigger>
    ensures { result ≡ to_taken (device_trigger (tokens t.now.text.now t.now.words.now) (view_of view.now.settings view.now.sheet.now) c.index) }
{
    let (device, next) = refs::device_ref(c, t, view)?;
    let (n, behind) = next.expect_either(t, b"goes offline", b"comes online")?;
    Ok((Trigger::DeviceOnline(device, online_by(n)), behind))
}

#[tactic(auto, unfolding(language::specs::Trigger::group_trigger, tokens::specs::Cursor::to_taken))]
fn group_trigger(c: Cursor, t: &Tokens<'_>, view: &View<'_>) -> Taken<Trigger>
    ensures { result ≡ to_taken (group_trigger (tokens t.now.text.now t.now.words.now) (view_of view.now.settings view.now.sheet.now) c.index) }
{
    let (group, next) = refs::group_ref(c, t, view)?;
    let (n, behind) = next.expect_phrase_choice(t, b"becomes", b"any_on all_off")?;
    Ok((Trigger::GroupBecomes(group, aggregate_by(n)), behind))
}

#[tactic(auto, unfolding(language::specs::Trigger::hcl_trigger, tokens::specs::Cursor::to_taken))]
fn hcl_trigger(c: Cursor, t: &Tokens<'_>, view: &View<'_>) -> Taken<Trigger>
    ensures { result ≡ to_taken (hcl_trigger (tokens t.now.text.now t.now.words.now) (view_of view.now.settings view.now.sheet.now) c.index) }
{
    let (n, next) = c.expect_phrase_choice(t, b"override", b"starts clears")?;
    let (light, behind) = words::target_for(next, t, view)?;
    Ok((Trigger::HclOverride(light, override_by(n)), behind))
}

#[tactic(auto, unfolding(language::specs::Trigger::level_cross, model::specs::Limits::last_level, tokens::specs::Cursor::to_taken))]
fn level_cross(c: Cursor, t: &Tokens<'_>, lamp: Ref) -> Taken<Trigger>
    ensures { result ≡ to_taken (level_cross (tokens t.now.text.now t.now.words.now) lamp c.index) }
{
    let (_, crossed) = c.expect_point_phrase(t, b"level crosses")?;
    let (n, next) = crossed.expect_choice(t, b"above below", 21)?;
    let (level, behind) = next.expect_int_in(t, 0, MAX_LEVEL)?;
    Ok((Trigger::LampLevelCross(lamp, crossing_by(n), level), behind))
}

#[tactic(auto, unfolding(language::specs::Trigger::lamp_change, tokens::specs::Cursor::to_taken, tokens::specs::Cursor::accepted))]
fn lamp_change(c: Cursor, t: &Tokens<'_>, lamp: Ref) -> Taken<Trigger>
    ensures { result ≡ to_taken (lamp_change (tokens t.now.text.now t.now.words.now) lamp c.index) }
{
    if let Some(next) = c.accept_kw(t, b"turns") {
        let (n, behind) = next.expect_choice(t, b"on off", 21)?;
        return Ok((Trigger::LampTurns(lamp, power_by(n)), behind));
    }
    level_cross(c, t, lamp)
}

#[tactic(auto, unfolding(language::specs::Trigger::lamp_trigger, tokens::specs::Cursor::to_taken))]
fn lamp_trigger(c: Cursor, t: &Tokens<'_>, view: &View<'_>) -> Taken<Trigger>
    ensures { result ≡ to_taken (lamp_trigger (tokens t.now.text.now t.now.words.now) (view_of view.now.settings view.now.sheet.now) c.index) }
{
    let (lamp, behind) = refs::lamp_ref(c, t, view)?;
    lamp_change(behind, t, lamp)
}

#[tactic(auto, unfolding(language::specs::Trigger::input_device_change))]
fn input_device_change(device: Ref, n: u32) -> Trigger
    ensures { result ≡ input_device_change device n }
{
    match n {
        0 => Trigger::InputDevicePowerCycled(device),
        _ => Trigger::InputDeviceManualConfigChanged(device),
    }
}

#[tactic(auto, unfolding(language::specs::Trigger::input_device_trigger, tokens::specs::Cursor::to_taken))]
fn input_device_trigger(c: Cursor, t: &Tokens<'_>, view: &View<'_>) -> Taken<Trigger>
    ensures { result ≡ to_taken (input_device_trigger (tokens t.now.text.now t.now.words.now) (view_of view.now.settings view.now.sheet.now) c.index) }
{
    let (device, next) = refs::input_device_ref(c, t, view)?;
    let (n, behind) = next.expect_either(t, b"power cycled", b"manual config changed")?;
    Ok((input_device_change(device, n), behind))
}

#[tactic(auto, unfolding(language::specs::Trigger::raw_data, model::specs::Limits::last_event_information, tokens::specs::Cursor::to_taken))]
fn raw_data(c: Cursor, t: &Tokens<'_>) -> Taken<Event>
    ensures { result ≡ to_taken (raw_data (tokens t.now.text.now t.now.words.now) c.index) }
{
    let (n, next) = c.expect_int_in(t, 0, MAX_EVENT_INFORMATION)?;
    let (_, behind) = next.expect(t, kind::CLOSE)?;
    Ok((Event::Raw(n), behind))
}

#[tactic(auto, unfolding(language::specs::Trigger::raw_event, tokens::specs::Cursor::to_taken))]
fn raw_event(c: Cursor, t: &Tokens<'_>) -> Taken<Event>
    ensures { result ≡ to_taken (raw_event (tokens t.now.text.now t.now.words.now) c.index) }
{
    let (_, opened) = c.expect(t, kind::OPEN)?;
    let (_, next) = opened.expect_kw(t, b"data")?;
    let (_, behind) = next.expect(t, kind::ASSIGN)?;
    raw_data(behind, t)
}

// The event with the n-th word.
#[tactic(auto, unfolding(language::specs::Trigger::event_of))]
fn event_by(n: u32) -> Event
    ensures { result ≡ event_of n }
{
    match n {
        0 => Event::Press,
        1 => Event::Release,
        2 => Event::ShortPress,
        3 => Event::DoublePress,
        4 => Event::LongPressStart,
        5 => Event::LongPressRepeat,
        6 => Event::LongPressStop,
        7 => Event::ButtonFree,
        8 => Event::ButtonStuck,
        9 => Event::Movement,
        10 => Event::NoMovement,
        _ => Event::AnyEvent,
    }
}

// EVENT: the word of one, or `event(data=N)`. No word is refused with 20, another with 21.
#[tactic(auto, unfolding(language::specs::Trigger::event_at, tokens::specs::Cursor::to_taken))]
pub fn event_match(c: Cursor, t: &Tokens<'_>) -> Taken<Event>
    ensures { result ≡ to_taken (event_at (tokens t.now.text.now t.now.words.now) c.index) }
{
    let (n, behind) = c.expect_choice(
        t,
        b"press release short_press double_press long_press_start long_press_repeat long_press_stop button_free button_stuck movement no_movement any_event event",
        21,
    )?;
    if n == 12 {
        return raw_event(behind, t);
    }
    Ok((event_by(n), behind))
}

#[tactic(auto, unfolding(language::specs::Trigger::input_event, tokens::specs::Cursor::to_taken))]
fn input_event(c: Cursor, t: &Tokens<'_>, selector: Selector) -> Taken<Trigger>
    ensures { result ≡ to_taken (input_event (tokens t.now.text.now t.now.words.now) selector c.index) }
{
    let (event, behind) = event_match(c, t)?;
    Ok((Trigger::InputEvent(selector, event), behind))
}

// A group of inputs is refused with 30 before the next word is read, here and behind a point; paren is the index of `(`.
#[tactic(auto, unfolding(language::specs::Trigger::input_becomes, tokens::specs::Cursor::to_taken))]
fn input_becomes(c: Cursor, t: &Tokens<'_>, paren: usize, selector: Selector) -> Taken<Trigger>
    ensures { result ≡ to_taken (input_becomes (tokens t.now.text.now t.now.words.now) paren selector c.index) }
{
    let (input, next) = args::one_instance(paren, c, selector)?;
    let (n, behind) = next.expect_choice(t, b"occupied vacant", 21)?;
    Ok((Trigger::InputOccupancy(input, occupancy_by(n)), behind))
}

#[tactic(auto, unfolding(language::specs::Trigger::light_cross, model::specs::Limits::last_event_information, tokens::specs::Cursor::to_taken))]
fn light_cross(c: Cursor, t: &Tokens<'_>, input: InputRef) -> Taken<Trigger>
    ensures { result ≡ to_taken (light_cross (tokens t.now.text.now t.now.words.now) input c.index) }
{
    let (n, next) = c.expect_phrase_choice(t, b"crosses", b"above below")?;
    let (light, behind) = next.expect_int_in(t, 0, MAX_EVENT_INFORMATION)?;
    Ok((
        Trigger::InputLightCross(input, crossing_by(n), light),
        behind,
    ))
}

#[tactic(auto, unfolding(language::specs::Trigger::position_change, tokens::specs::Cursor::to_taken))]
fn position_change(c: Cursor, t: &Tokens<'_>, input: InputRef) -> Taken<Trigger>
    ensures { result ≡ to_taken (position_change (tokens t.now.text.now t.now.words.now) input c.index) }
{
    let (_, behind) = c.expect_kw(t, b"changes")?;
    Ok((Trigger::InputPositionChange(input), behind))
}

// The n-th property of an instance.
#[tactic(auto, unfolding(language::specs::Trigger::property_trigger, tokens::specs::Cursor::to_taken))]
fn property_trigger(n: u32, behind: Cursor, t: &Tokens<'_>, input: InputRef) -> Taken<Trigger>
    ensures { result ≡ to_taken (property_trigger (tokens t.now.text.now t.now.words.now) input n behind.index) }
{
    match n {
        0 => light_cross(behind, t, input),
        _ => position_change(behind, t, input),
    }
}

#[tactic(auto, unfolding(language::specs::Trigger::point_trigger, tokens::specs::Cursor::to_taken))]
fn point_trigger(c: Cursor, t: &Tokens<'_>, paren: usize, selector: Selector) -> Taken<Trigger>
    ensures { result ≡ to_taken (point_trigger (tokens t.now.text.now t.now.words.now) paren selector c.index) }
{
    let (input, next) = args::one_instance(paren, c, selector)?;
    let (n, behind) = next.expect_choice(t, b"light position", 21)?;
    property_trigger(n, behind, t, input)
}

#[tactic(auto, unfolding(language::specs::Trigger::input_change, tokens::specs::Cursor::to_taken, tokens::specs::Cursor::accepted))]
fn input_change(c: Cursor, t: &Tokens<'_>, paren: usize, selector: Selector) -> Taken<Trigger>
    ensures { result ≡ to_taken (input_change (tokens t.now.text.now t.now.words.now) paren selector c.index) }
{
    let i = c.index;
    if let Some(next) = c.accept_kw(t, b"is") {
        return input_event(next, t, selector);
    }
    if let Some(next) = c.accept_kw(t, b"becomes") {
        return input_becomes(next, t, paren, selector);
    }
    if let Some(next) = c.accept(t, kind::POINT) {
        return point_trigger(next, t, paren, selector);
    }
    Err(tokens::cursor::refuse(20, i))
}

#[tactic(auto, unfolding(language::specs::Trigger::input_trigger, tokens::specs::Cursor::to_taken, tokens::specs::Cursor::accepted))]
fn input_trigger(c: Cursor, t: &Tokens<'_>, view: &View<'_>) -> Taken<Trigger>
    ensures { result ≡ to_taken (input_trigger (tokens t.now.text.now t.now.words.now) (view_of view.now.settings view.now.sheet.now) (capacity t.now.words.now) c.index) }
{
    let i = c.index;
    if let Some(next) = c.accept_kw(t, b"device") {
        return input_device_trigger(next, t, view);
    }
    let (selector, behind) = args::input_selector(c, t, view)?;
    input_change(behind, t, i, selector)
}

// The trigger with the n-th first word.
#[tactic(auto, unfolding(language::specs::Trigger::trigger_by, tokens::specs::Cursor::to_taken))]
fn trigger_by(n: u32, behind: Cursor, t: &Tokens<'_>, view: &View<'_>) -> Taken<Trigger>
    ensures { result ≡ to_taken (trigger_by (tokens t.now.text.now t.now.words.now) (view_of view.now.settings view.now.sheet.now) (range_of t.now.words.now) (capacity t.now.words.now) n behind.index) }
{
    // One match on the place of a word, as the definition has it: a table of functions would say no more.
    match n {
        0 => return input_trigger(behind, t, view),
        1 => return at_trigger(behind, t),
        2 => return every_trigger(behind, t),
        3 => return lamp_trigger(behind, t, view),
        4 => return group_trigger(behind, t, view),
        5 => return scene_trigger(behind, t, view),
        6 => return device_trigger(behind, t, view),
        7 => return hcl_trigger(behind, t, view),
        8 => return timer_trigger(behind, t),
        9 => return controller_trigger(behind, t),
        10 => return rule_trigger(behind, t),
        11 => return http_trigger(behind, t),
        _ => return mqtt_trigger(behind, t),
    }
}

// A trigger, by its first word: no word is refused with 20, another with 21.
#[tactic(auto, unfolding(language::specs::Trigger::trigger_at, tokens::specs::Cursor::to_taken))]
pub fn trigger_at(c: Cursor, t: &Tokens<'_>, view: &View<'_>) -> Taken<Trigger>
    ensures { result ≡ to_taken (trigger_at (tokens t.now.text.now t.now.words.now) (view_of view.now.settings view.now.sheet.now) (range_of t.now.words.now) (capacity t.now.words.now) c.index) }
{
    let (n, behind) = first::trigger_word(c, t)?;
    trigger_by(n, behind, t, view)
}
