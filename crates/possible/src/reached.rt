// Can the call name this entry's adapters? (specs/Reached.antt)
ghost use Rattle.std.specs.Prelude.{◌≡◌};
ghost use Rattle.sheet.specs.View.{view_of};
ghost use Rattle.writing.specs.Reached.{is_reached, reached_selector, reached_target, reached_reading, reached_value, reached_operand, reached_trigger, reached_condition};

use model::{Condition, LightTarget, Operand, Reading, Selector, Trigger, Value};
use sheet::View;

#[tactic(auto, unfolding(writing::specs::Reached::is_reached, sheet::specs::View::view_of))]
fn is_reached(view: &View<'_>, a: u32) -> bool
    ensures { result ≡ is_reached (view_of view.now.settings view.now.sheet.now) a }
{
    if a == view.settings.primary {
        return true;
    }
    view.adapter_exists(a)
}

#[tactic(auto, unfolding(writing::specs::Reached::reached_selector))]
fn reached_selector(view: &View<'_>, s: Selector) -> bool
    ensures { result ≡ reached_selector (view_of view.now.settings view.now.sheet.now) s }
{
    match s {
        Selector::Instance(r, _) => is_reached(view, r.adapter),
        Selector::Group(a, _, _) => is_reached(view, a),
    }
}

#[tactic(auto, unfolding(writing::specs::Reached::reached_target, sheet::specs::View::view_of))]
fn reached_target(view: &View<'_>, to: LightTarget) -> bool
    ensures { result ≡ reached_target (view_of view.now.settings view.now.sheet.now) to }
{
    match to {
        LightTarget::Lamp(r) => is_reached(view, r.adapter),
        LightTarget::Group(r) => is_reached(view, r.adapter),
        LightTarget::Broadcast(a) => a == view.settings.primary,
    }
}

#[tactic(auto, unfolding(writing::specs::Reached::reached_reading))]
fn reached_reading(view: &View<'_>, reading: Reading) -> bool
    ensures { result ≡ reached_reading (view_of view.now.settings view.now.sheet.now) reading }
{
    match reading {
        Reading::Lamp(r, _) => is_reached(view, r.adapter),
        Reading::Group(r, _) => is_reached(view, r.adapter),
        Reading::Input(r, _) => is_reached(view, r.device.adapter),
        Reading::Time(_) => true,
        Reading::Sun(_) => true,
        Reading::Event(_) => true,
        Reading::Var(_) => true,
    }
}

#[tactic(auto, unfolding(writing::specs::Reached::reached_value))]
fn reached_value(view: &View<'_>, value: Value) -> bool
    ensures { result ≡ reached_value (view_of view.now.settings view.now.sheet.now) value }
{
    match value {
        Value::Literal(_) => true,
        Value::Reads(reading, _) => reached_reading(view, reading),
    }
}

#[tactic(auto, unfolding(writing::specs::Reached::reached_operand))]
fn reached_operand(view: &View<'_>, operand: Operand) -> bool
    ensures { result ≡ reached_operand (view_of view.now.settings view.now.sheet.now) operand }
{
    match operand {
        Operand::Text(_) => true,
        Operand::Number(v) => reached_value(view, v),
    }
}

#[tactic(auto, unfolding(writing::specs::Reached::reached_trigger))]
pub fn reached_trigger(view: &View<'_>, x: Trigger) -> bool
    ensures { result ≡ reached_trigger (view_of view.now.settings view.now.sheet.now) x }
{
    match x {
        Trigger::InputEvent(s, _) => reached_selector(view, s),
        Trigger::InputOccupancy(r, _) => is_reached(view, r.device.adapter),
        Trigger::InputLightCross(r, _, _) => is_reached(view, r.device.adapter),
        Trigger::InputPositionChange(r) => is_reached(view, r.device.adapter),
        Trigger::InputDevicePowerCycled(r) => is_reached(view, r.adapter),
        Trigger::InputDeviceManualConfigChanged(r) => is_reached(view, r.adapter),
        Trigger::AtTime(_, _) => true,
        Trigger::AtSolar(_, _, _) => true,
        Trigger::Every(_) => true,
        Trigger::LampTurns(r, _) => is_reached(view, r.adapter),
        Trigger::LampLevelCross(r, _, _) => is_reached(view, r.adapter),
        Trigger::GroupBecomes(r, _) => is_reached(view, r.adapter),
        Trigger::SceneRecalled(a, _) => is_reached(view, a),
        Trigger::DeviceOnline(r, _) => is_reached(view, r.adapter),
        Trigger::HclOverride(to, _) => reached_target(view, to),
        Trigger::TimerFires(_) => true,
        Trigger::ControllerStarts => true,
        Trigger::ControllerBecomesActive => true,
        Trigger::RuleFails(_) => true,
        Trigger::HttpTrigger => true,
        Trigger::MqttMessage(_) => true,
    }
}

#[tactic(auto, unfolding(writing::specs::Reached::reached_condition))]
pub fn reached_condition(view: &View<'_>, y: Condition) -> bool
    ensures { result ≡ reached_condition (view_of view.now.settings view.now.sheet.now) y }
{
    match y {
        Condition::TimeInRange(_, _) => true,
        Condition::SunIs(_) => true,
        Condition::LampIs(r, _) => is_reached(view, r.adapter),
        Condition::LampCompare(r, _, _, v) => is_reached(view, r.adapter) && reached_value(view, v),
        Condition::GroupState(r, _) => is_reached(view, r.adapter),
        Condition::InputOccupancy(r, _) => is_reached(view, r.device.adapter),
        Condition::InputLight(r, _, v) => is_reached(view, r.device.adapter)
            && reached_value(view, v),
        Condition::HclState(to, _) => reached_target(view, to),
        Condition::DeviceOnline(r) => is_reached(view, r.adapter),
        Condition::RuleEnabled(_) => true,
        Condition::LastFiredOlderThan(_, _) => true,
        Condition::TimerRunning(_) => true,
        Condition::ControllerActive => true,
        Condition::VarCompare(_, _, v) => reached_operand(view, v),
        Condition::DayIn(_) => true,
    }
}
