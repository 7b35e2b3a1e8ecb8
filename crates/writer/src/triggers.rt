// Triggers as they are written.
ghost use Rattle.writing.specs.Write.{trigger_pieces, event_pieces};
ghost use Rattle.writing.specs.Pieces.{further};
ghost use Rattle.spelling.specs.Put.{Put, Fits, no_bytes};
ghost use Rattle.topics.specs.Ranges.{name_in};

use crate::choices::{
    put_aggregate, put_crossing, put_occupancy, put_online, put_override, put_power,
};
use model::{
    Aggregate, Crossing, Days, Event, InputRef, LightTarget, Name, Occupancy, Online, Override,
    Power, Ref, Selector, SolarEvent, Trigger,
};
use spelling::numbers::{put_duration, put_number, put_time};
use spelling::parts::{
    put_argument, put_close, put_device, put_input, put_named, put_reference, put_selector,
    put_solar, put_target,
};
use spelling::put::{put, put_string};
use spelling::week::put_on;

fn input_event(out: &mut [u8], at: usize, primary: u32, s: Selector, event: Event) -> usize
    requires { Fits out.old at (further (trigger_pieces primary no_bytes (Trigger.InputEvent s event))) }
    ensures { Put out.old at (further (trigger_pieces primary no_bytes (Trigger.InputEvent s event))) out.new result }
{
    let i = put(out, at, b" input");
    let j = put_selector(out, i, primary, s);
    let k = put(out, j, b" is");
    put_event(out, k, event)
}

fn input_occupancy(out: &mut [u8], at: usize, primary: u32, r: InputRef, state: Occupancy) -> usize
    requires { Fits out.old at (further (trigger_pieces primary no_bytes (Trigger.InputOccupancy r state))) }
    ensures { Put out.old at (further (trigger_pieces primary no_bytes (Trigger.InputOccupancy r state))) out.new result }
{
    let i = put_input(out, at, primary, r);
    let j = put(out, i, b" becomes");
    put_occupancy(out, j, state)
}

fn input_light(
    out: &mut [u8],
    at: usize,
    primary: u32,
    r: InputRef,
    way: Crossing,
    light: u32,
) -> usize
    requires { Fits out.old at (further (trigger_pieces primary no_bytes (Trigger.InputLightCross r way light))) }
    ensures { Put out.old at (further (trigger_pieces primary no_bytes (Trigger.InputLightCross r way light))) out.new result }
{
    let i = put_input(out, at, primary, r);
    let j = put(out, i, b" . light crosses");
    let k = put_crossing(out, j, way);
    put_number(out, k, light as u64)
}

fn input_position(out: &mut [u8], at: usize, primary: u32, r: InputRef) -> usize
    requires { Fits out.old at (further (trigger_pieces primary no_bytes (Trigger.InputPositionChange r))) }
    ensures { Put out.old at (further (trigger_pieces primary no_bytes (Trigger.InputPositionChange r))) out.new result }
{
    let i = put_input(out, at, primary, r);
    put(out, i, b" . position changes")
}

fn power_cycled(out: &mut [u8], at: usize, primary: u32, r: Ref) -> usize
    requires { Fits out.old at (further (trigger_pieces primary no_bytes (Trigger.InputDevicePowerCycled r))) }
    ensures { Put out.old at (further (trigger_pieces primary no_bytes (Trigger.InputDevicePowerCycled r))) out.new result }
{
    let i = put(out, at, b" input device");
    let j = put_device(out, i, primary, r);
    put(out, j, b" power cycled")
}

fn config_changed(out: &mut [u8], at: usize, primary: u32, r: Ref) -> usize
    requires { Fits out.old at (further (trigger_pieces primary no_bytes (Trigger.InputDeviceManualConfigChanged r))) }
    ensures { Put out.old at (further (trigger_pieces primary no_bytes (Trigger.InputDeviceManualConfigChanged r))) out.new result }
{
    let i = put(out, at, b" input device");
    let j = put_device(out, i, primary, r);
    put(out, j, b" manual config changed")
}

fn at_time(out: &mut [u8], at: usize, m: u32, days: Days) -> usize
    requires { Fits out.old at (further (trigger_pieces 0 no_bytes (Trigger.AtTime m days))) }
    ensures { Put out.old at (further (trigger_pieces 0 no_bytes (Trigger.AtTime m days))) out.new result }
{
    let i = put(out, at, b" at");
    let j = put_time(out, i, m);
    put_on(out, j, days)
}

fn at_solar(out: &mut [u8], at: usize, event: SolarEvent, offset: i32, days: Days) -> usize
    requires { Fits out.old at (further (trigger_pieces 0 no_bytes (Trigger.AtSolar event offset days))) }
    ensures { Put out.old at (further (trigger_pieces 0 no_bytes (Trigger.AtSolar event offset days))) out.new result }
{
    let i = put(out, at, b" at");
    let j = put_solar(out, i, event, offset);
    put_on(out, j, days)
}

fn every(out: &mut [u8], at: usize, ms: u32) -> usize
    requires { Fits out.old at (further (trigger_pieces 0 no_bytes (Trigger.Every ms))) }
    ensures { Put out.old at (further (trigger_pieces 0 no_bytes (Trigger.Every ms))) out.new result }
{
    let i = put(out, at, b" every");
    put_duration(out, i, ms)
}

fn lamp_turns(out: &mut [u8], at: usize, primary: u32, r: Ref, to: Power) -> usize
    requires { Fits out.old at (further (trigger_pieces primary no_bytes (Trigger.LampTurns r to))) }
    ensures { Put out.old at (further (trigger_pieces primary no_bytes (Trigger.LampTurns r to))) out.new result }
{
    let i = put_reference(out, at, b" lamp", primary, r);
    let j = put(out, i, b" turns");
    put_power(out, j, to)
}

fn lamp_level(out: &mut [u8], at: usize, primary: u32, r: Ref, way: Crossing, level: u32) -> usize
    requires { Fits out.old at (further (trigger_pieces primary no_bytes (Trigger.LampLevelCross r way level))) }
    ensures { Put out.old at (further (trigger_pieces primary no_bytes (Trigger.LampLevelCross r way level))) out.new result }
{
    let i = put_reference(out, at, b" lamp", primary, r);
    let j = put(out, i, b" . level crosses");
    let k = put_crossing(out, j, way);
    put_number(out, k, level as u64)
}

fn group_becomes(out: &mut [u8], at: usize, primary: u32, r: Ref, state: Aggregate) -> usize
    requires { Fits out.old at (further (trigger_pieces primary no_bytes (Trigger.GroupBecomes r state))) }
    ensures { Put out.old at (further (trigger_pieces primary no_bytes (Trigger.GroupBecomes r state))) out.new result }
{
    let i = put_reference(out, at, b" group", primary, r);
    let j = put(out, i, b" becomes");
    put_aggregate(out, j, state)
}

fn scene_recalled(out: &mut [u8], at: usize, primary: u32, adapter: u32, scene: u32) -> usize
    requires { Fits out.old at (further (trigger_pieces primary no_bytes (Trigger.SceneRecalled adapter scene))) }
    ensures { Put out.old at (further (trigger_pieces primary no_bytes (Trigger.SceneRecalled adapter scene))) out.new result }
{
    let i = put_argument(out, at, b" scene (", scene);
    let j = put_close(out, i, primary, adapter);
    put(out, j, b" recalled")
}

fn device_online(out: &mut [u8], at: usize, primary: u32, r: Ref, change: Online) -> usize
    requires { Fits out.old at (further (trigger_pieces primary no_bytes (Trigger.DeviceOnline r change))) }
    ensures { Put out.old at (further (trigger_pieces primary no_bytes (Trigger.DeviceOnline r change))) out.new result }
{
    let i = put_reference(out, at, b" device", primary, r);
    put_online(out, i, change)
}

fn hcl_override(out: &mut [u8], at: usize, primary: u32, to: LightTarget, change: Override) -> usize
    requires { Fits out.old at (further (trigger_pieces primary no_bytes (Trigger.HclOverride to change))) }
    ensures { Put out.old at (further (trigger_pieces primary no_bytes (Trigger.HclOverride to change))) out.new result }
{
    let i = put(out, at, b" hcl override");
    let j = put_override(out, i, change);
    let k = put(out, j, b" for");
    put_target(out, k, primary, to)
}

fn mqtt_message(out: &mut [u8], at: usize, text: &[u8], name: Name) -> usize
    requires { Fits out.old at (further (trigger_pieces 0 (name_in text.now) (Trigger.MqttMessage name))) }
    ensures { Put out.old at (further (trigger_pieces 0 (name_in text.now) (Trigger.MqttMessage name))) out.new result }
{
    let i = put(out, at, b" mqtt");
    put_string(out, i, text, name)
}

fn raw_event(out: &mut [u8], at: usize, n: u32) -> usize
    requires { Fits out.old at (further (event_pieces (Event.Raw n))) }
    ensures { Put out.old at (further (event_pieces (Event.Raw n))) out.new result }
{
    let i = put_argument(out, at, b" event ( data =", n);
    put(out, i, b" )")
}

fn put_event(out: &mut [u8], at: usize, event: Event) -> usize
    requires { Fits out.old at (further (event_pieces event)) }
    ensures { Put out.old at (further (event_pieces event)) out.new result }
{
    match event {
        Event::Press => put(out, at, b" press"),
        Event::Release => put(out, at, b" release"),
        Event::ShortPress => put(out, at, b" short_press"),
        Event::DoublePress => put(out, at, b" double_press"),
        Event::LongPressStart => put(out, at, b" long_press_start"),
        Event::LongPressRepeat => put(out, at, b" long_press_repeat"),
        Event::LongPressStop => put(out, at, b" long_press_stop"),
        Event::ButtonFree => put(out, at, b" button_free"),
        Event::ButtonStuck => put(out, at, b" button_stuck"),
        Event::Movement => put(out, at, b" movement"),
        Event::NoMovement => put(out, at, b" no_movement"),
        Event::AnyEvent => put(out, at, b" any_event"),
        Event::Raw(n) => raw_event(out, at, n),
    }
}

pub fn put_trigger(out: &mut [u8], at: usize, primary: u32, text: &[u8], x: Trigger) -> usize
    requires { Fits out.old at (further (trigger_pieces primary (name_in text.now) x)) }
    ensures { Put out.old at (further (trigger_pieces primary (name_in text.now) x)) out.new result }
{
    match x {
        Trigger::InputEvent(s, event) => input_event(out, at, primary, s, event),
        Trigger::InputOccupancy(r, state) => input_occupancy(out, at, primary, r, state),
        Trigger::InputLightCross(r, way, light) => input_light(out, at, primary, r, way, light),
        Trigger::InputPositionChange(r) => input_position(out, at, primary, r),
        Trigger::InputDevicePowerCycled(r) => power_cycled(out, at, primary, r),
        Trigger::InputDeviceManualConfigChanged(r) => config_changed(out, at, primary, r),
        Trigger::AtTime(m, days) => at_time(out, at, m, days),
        Trigger::AtSolar(event, offset, days) => at_solar(out, at, event, offset, days),
        Trigger::Every(ms) => every(out, at, ms),
        Trigger::LampTurns(r, to) => lamp_turns(out, at, primary, r, to),
        Trigger::LampLevelCross(r, way, level) => lamp_level(out, at, primary, r, way, level),
        Trigger::GroupBecomes(r, state) => group_becomes(out, at, primary, r, state),
        Trigger::SceneRecalled(adapter, scene) => scene_recalled(out, at, primary, adapter, scene),
        Trigger::DeviceOnline(r, change) => device_online(out, at, primary, r, change),
        Trigger::HclOverride(to, change) => hcl_override(out, at, primary, to, change),
        Trigger::TimerFires(name) => put_named(out, at, b" timer", text, name, b" fires"),
        Trigger::ControllerStarts => put(out, at, b" controller starts"),
        Trigger::ControllerBecomesActive => put(out, at, b" controller becomes active"),
        Trigger::RuleFails(name) => put_named(out, at, b" rule", text, name, b" fails"),
        Trigger::HttpTrigger => put(out, at, b" http trigger"),
        Trigger::MqttMessage(name) => mqtt_message(out, at, text, name),
    }
}
