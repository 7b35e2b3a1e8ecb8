// Could a text give this entry? (specs/Possible.antt) Durations are held in 32 bits and offsets in 32 signed ones, so that each of them is short enough.
ghost use Rattle.std.specs.Prelude.{◌≡◌, false, leb};
ghost use Rattle.text.specs.Choice.{pick};
ghost use Rattle.model.specs.Limits.{last_short_address, last_scene, last_level, last_event_information, last_adapter};
ghost use Rattle.writing.specs.Possible.{is_inside, has_byte, is_string, possible_string, possible_name, possible_topic, possible_ref, possible_input, possible_type, possible_selector, possible_target, possible_event, possible_days, possible_integer, possible_bound, possible_reading, possible_delta, possible_value, possible_operand, possible_trigger, possible_condition};

use model::{
    Condition, Days, Event, InputRef, LightTarget, Name, Operand, Reading, Ref, Selector,
    TimeBound, Trigger, Value, limits,
};
use text::{find, part, place};
use topics::topic;

// The longest name and the longest var text.
const MAX_NAME: u32 = 48;

const MAX_TEXT: u32 = 16;

const MAX_SCENE: u32 = 15;

const MAX_LEVEL: u32 = 254;

const MAX_EVENT_INFORMATION: u32 = 1023;

const DAY_MINUTES: u32 = 1440;

// One more than the sum of all days.
const PAST_DAYS: u32 = 128;

// In milliseconds.
const LEAST_PERIOD: u32 = 1000;

// The greatest number that digits may write.
const MOST_RUN: i64 = 1000000000;

#[tactic(auto, unfolding(writing::specs::Possible::is_inside))]
fn is_inside(text: &[u8], n: Name) -> bool
    ensures { result ≡ is_inside text.now n }
{
    n.start as usize + n.length as usize <= text.len()
}

#[tactic(auto, unfolding(writing::specs::Possible::has_byte))]
fn has_byte(bytes: &[u8], b: u8) -> bool
    ensures { result ≡ has_byte b bytes.now }
{
    find::find(bytes, 0, b) < bytes.len()
}

// Can a string have these bytes?
#[tactic(auto, unfolding(writing::specs::Possible::is_string, writing::specs::Possible::is_well_formed))]
fn is_string(bytes: &[u8]) -> bool
    ensures { result ≡ is_string bytes.now }
{
    !has_byte(bytes, b'"') && !has_byte(bytes, b'\n') && place::check_utf8(bytes).is_ok()
}

#[tactic(auto, unfolding(writing::specs::Possible::possible_string, topics::specs::Ranges::name_in))]
fn possible_string(text: &[u8], least: u32, most: u32, n: Name) -> bool
    ensures { result ≡ possible_string text.now least most n }
{
    if !is_inside(text, n) || n.length < least || most < n.length {
        return false;
    }
    let start = n.start as usize;
    is_string(part::part(text, start, start + n.length as usize))
}

#[tactic(auto, unfolding(writing::specs::Possible::possible_name))]
fn possible_name(text: &[u8], n: Name) -> bool
    ensures { result ≡ possible_name text.now n }
{
    possible_string(text, 1, MAX_NAME, n)
}

#[tactic(auto, unfolding(writing::specs::Possible::possible_topic, topics::specs::Ranges::name_in))]
fn possible_topic(text: &[u8], n: Name) -> bool
    ensures { result ≡ possible_topic text.now n }
{
    if !possible_name(text, n) {
        return false;
    }
    let start = n.start as usize;
    topic::topic_number(part::part(text, start, start + n.length as usize)) == 0
}

#[tactic(auto, unfolding(writing::specs::Possible::possible_ref))]
fn possible_ref(most: u32, r: Ref) -> bool
    ensures { result ≡ possible_ref most r }
{
    r.adapter <= limits::MAX_ADAPTER && r.number <= most
}

#[tactic(auto, unfolding(writing::specs::Possible::possible_input, model::specs::Limits::last_short_address, model::specs::Limits::last_instance))]
fn possible_input(r: InputRef) -> bool
    ensures { result ≡ possible_input r }
{
    possible_ref(Ref::MAX_INPUT, r.device) && r.instance <= limits::MAX_INSTANCE
}

#[tactic(auto, unfolding(writing::specs::Possible::possible_type, model::specs::Limits::last_instance_type))]
fn possible_type(of: Option<u32>) -> bool
    ensures { result ≡ possible_type of }
{
    match of {
        None => true,
        Some(n) => n <= limits::MAX_INSTANCE_TYPE,
    }
}

#[tactic(auto, unfolding(writing::specs::Possible::possible_selector, model::specs::Limits::last_adapter, model::specs::Limits::last_instance_group))]
fn possible_group(a: u32, g: u32, of: Option<u32>) -> bool
    ensures { result ≡ possible_selector (Selector.Group a g of) }
{
    a <= limits::MAX_ADAPTER && g <= limits::MAX_INSTANCE_GROUP && possible_type(of)
}

#[tactic(auto, unfolding(writing::specs::Possible::possible_selector, model::specs::Limits::last_short_address, model::specs::Limits::last_instance))]
fn possible_selector(s: Selector) -> bool
    ensures { result ≡ possible_selector s }
{
    match s {
        Selector::Instance(r, n) => possible_ref(Ref::MAX_INPUT, r) && n <= limits::MAX_INSTANCE,
        Selector::Group(a, g, of) => possible_group(a, g, of),
    }
}

#[tactic(auto, unfolding(writing::specs::Possible::possible_target, model::specs::Limits::last_short_address, model::specs::Limits::last_group, model::specs::Limits::last_adapter))]
fn possible_target(to: LightTarget) -> bool
    ensures { result ≡ possible_target to }
{
    match to {
        LightTarget::Lamp(r) => possible_ref(Ref::MAX_LAMP, r),
        LightTarget::Group(r) => possible_ref(Ref::MAX_GROUP, r),
        LightTarget::Broadcast(a) => a <= limits::MAX_ADAPTER,
    }
}

#[tactic(auto, unfolding(writing::specs::Possible::possible_event, model::specs::Limits::last_event_information))]
fn possible_event(e: Event) -> bool
    ensures { result ≡ possible_event e }
{
    match e {
        Event::Press => true,
        Event::Release => true,
        Event::ShortPress => true,
        Event::DoublePress => true,
        Event::LongPressStart => true,
        Event::LongPressRepeat => true,
        Event::LongPressStop => true,
        Event::ButtonFree => true,
        Event::ButtonStuck => true,
        Event::Movement => true,
        Event::NoMovement => true,
        Event::AnyEvent => true,
        Event::Raw(n) => n <= MAX_EVENT_INFORMATION,
    }
}

#[tactic(auto, unfolding(writing::specs::Possible::possible_days))]
fn possible_days(days: Days) -> bool
    ensures { result ≡ possible_days days }
{
    (1..PAST_DAYS).contains(&days.sum)
}

#[tactic(auto, unfolding(writing::specs::Possible::is_signed_up_to))]
fn possible_integer(z: i64) -> bool
    ensures { result ≡ possible_integer z }
{
    (-MOST_RUN..=MOST_RUN).contains(&z)
}

#[tactic(auto, unfolding(writing::specs::Possible::possible_bound, writing::specs::Possible::possible_time), using(crate::proofs::PossibleLaws::offset_short))]
fn possible_bound(bound: TimeBound) -> bool
    ensures { result ≡ possible_bound bound }
{
    match bound {
        TimeBound::Clock(m) => m < DAY_MINUTES,
        TimeBound::Solar(_, _offset) => true,
    }
}

#[tactic(auto, unfolding(writing::specs::Possible::possible_reading, model::specs::Limits::last_short_address, model::specs::Limits::last_group))]
fn possible_reading(text: &[u8], reading: Reading) -> bool
    ensures { result ≡ possible_reading text.now reading }
{
    match reading {
        Reading::Lamp(r, _) => possible_ref(Ref::MAX_LAMP, r),
        Reading::Group(r, _) => possible_ref(Ref::MAX_GROUP, r),
        Reading::Input(r, _) => possible_input(r),
        Reading::Time(_) => true,
        Reading::Sun(_) => true,
        Reading::Event(_) => true,
        Reading::Var(n) => possible_name(text, n),
    }
}

#[tactic(auto, unfolding(writing::specs::Possible::possible_delta))]
fn possible_delta(delta: Option<i64>) -> bool
    ensures { result ≡ possible_delta delta }
{
    match delta {
        None => true,
        Some(z) => possible_integer(z),
    }
}

#[tactic(auto, unfolding(writing::specs::Possible::possible_value))]
fn possible_value(text: &[u8], value: Value) -> bool
    ensures { result ≡ possible_value text.now value }
{
    match value {
        Value::Literal(z) => possible_integer(z),
        Value::Reads(reading, delta) => possible_reading(text, reading) && possible_delta(delta),
    }
}

#[tactic(auto, unfolding(writing::specs::Possible::possible_operand))]
fn possible_operand(text: &[u8], operand: Operand) -> bool
    ensures { result ≡ possible_operand text.now operand }
{
    match operand {
        Operand::Text(n) => possible_string(text, 0, MAX_TEXT, n),
        Operand::Number(v) => possible_value(text, v),
    }
}

// An instance and a number beside it.
#[tactic(auto, unfolding(model::specs::Limits::last_event_information))]
fn possible_light(r: InputRef, light: u32) -> bool
    ensures { result ≡ pick (possible_input r) (leb light last_event_information) false }
{
    possible_input(r) && light <= MAX_EVENT_INFORMATION
}

#[tactic(auto, unfolding(model::specs::Limits::last_short_address, model::specs::Limits::last_level))]
fn possible_level(r: Ref, level: u32) -> bool
    ensures { result ≡ pick (possible_ref last_short_address r) (leb level last_level) false }
{
    possible_ref(Ref::MAX_LAMP, r) && level <= MAX_LEVEL
}

#[tactic(auto, unfolding(model::specs::Limits::last_adapter, model::specs::Limits::last_scene))]
fn possible_scene(a: u32, scene: u32) -> bool
    ensures { result ≡ pick (leb a last_adapter) (leb scene last_scene) false }
{
    a <= limits::MAX_ADAPTER && scene <= MAX_SCENE
}

#[tactic(auto, unfolding(writing::specs::Possible::possible_trigger, writing::specs::Possible::possible_time, model::specs::Limits::last_short_address, model::specs::Limits::last_group, model::specs::Limits::last_adapter), using(crate::proofs::PossibleLaws::short_then, crate::proofs::PossibleLaws::then_short))]
pub fn possible_trigger(text: &[u8], x: Trigger) -> bool
    ensures { result ≡ possible_trigger text.now x }
{
    match x {
        Trigger::InputEvent(s, e) => possible_selector(s) && possible_event(e),
        Trigger::InputOccupancy(r, _) => possible_input(r),
        Trigger::InputLightCross(r, _, light) => possible_light(r, light),
        Trigger::InputPositionChange(r) => possible_input(r),
        Trigger::InputDevicePowerCycled(r) => possible_ref(Ref::MAX_INPUT, r),
        Trigger::InputDeviceManualConfigChanged(r) => possible_ref(Ref::MAX_INPUT, r),
        Trigger::AtTime(m, days) => m < DAY_MINUTES && possible_days(days),
        Trigger::AtSolar(_, _, days) => possible_days(days),
        Trigger::Every(ms) => LEAST_PERIOD <= ms,
        Trigger::LampTurns(r, _) => possible_ref(Ref::MAX_LAMP, r),
        Trigger::LampLevelCross(r, _, level) => possible_level(r, level),
        Trigger::GroupBecomes(r, _) => possible_ref(Ref::MAX_GROUP, r),
        Trigger::SceneRecalled(a, scene) => possible_scene(a, scene),
        Trigger::DeviceOnline(r, _) => possible_ref(Ref::MAX_DEVICE, r),
        Trigger::HclOverride(to, _) => possible_target(to),
        Trigger::TimerFires(n) => possible_name(text, n),
        Trigger::ControllerStarts => true,
        Trigger::ControllerBecomesActive => true,
        Trigger::RuleFails(n) => possible_name(text, n),
        Trigger::HttpTrigger => true,
        Trigger::MqttMessage(n) => possible_topic(text, n),
    }
}

#[tactic(auto, unfolding(writing::specs::Possible::possible_condition, model::specs::Limits::last_short_address, model::specs::Limits::last_group), using(crate::proofs::PossibleLaws::short_then, crate::proofs::PossibleLaws::then_short))]
pub fn possible_condition(text: &[u8], y: Condition) -> bool
    ensures { result ≡ possible_condition text.now y }
{
    match y {
        Condition::TimeInRange(from, to) => possible_bound(from) && possible_bound(to),
        Condition::SunIs(_) => true,
        Condition::LampIs(r, _) => possible_ref(Ref::MAX_LAMP, r),
        Condition::LampCompare(r, _, _, v) => possible_ref(Ref::MAX_LAMP, r)
            && possible_value(text, v),
        Condition::GroupState(r, _) => possible_ref(Ref::MAX_GROUP, r),
        Condition::InputOccupancy(r, _) => possible_input(r),
        Condition::InputLight(r, _, v) => possible_input(r) && possible_value(text, v),
        Condition::HclState(to, _) => possible_target(to),
        Condition::DeviceOnline(r) => possible_ref(Ref::MAX_DEVICE, r),
        Condition::RuleEnabled(n) => possible_name(text, n),
        Condition::LastFiredOlderThan(n, _) => possible_name(text, n),
        Condition::TimerRunning(n) => possible_name(text, n),
        Condition::ControllerActive => true,
        Condition::VarCompare(n, _, v) => possible_name(text, n) && possible_operand(text, v),
        Condition::DayIn(days) => possible_days(days),
    }
}
