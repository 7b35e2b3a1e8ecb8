// Conditions as they are written.
ghost use Rattle.writing.specs.Write.{condition_pieces};
ghost use Rattle.writing.specs.Pieces.{further};
ghost use Rattle.spelling.specs.Put.{Put, Fits, no_bytes};
ghost use Rattle.topics.specs.Ranges.{name_in};

use crate::choices::{
    put_aggregate, put_comparison, put_crossing, put_hcl, put_occupancy, put_power, put_property,
    put_sun,
};
use crate::values::{put_operand, put_value};
use model::{
    Aggregate, Comparison, Condition, Crossing, Days, Hcl, InputRef, LampProperty, LightTarget,
    Name, Occupancy, Operand, Power, Ref, Sun, TimeBound, Value,
};
use spelling::numbers::put_duration;
use spelling::parts::{put_bound, put_input, put_name, put_named, put_reference, put_target};
use spelling::put::put;
use spelling::week::put_days;

fn time_in_range(out: &mut [u8], at: usize, from: TimeBound, to: TimeBound) -> usize
    requires { Fits out.old at (further (condition_pieces 0 no_bytes (Condition.TimeInRange from to))) }
    ensures { Put out.old at (further (condition_pieces 0 no_bytes (Condition.TimeInRange from to))) out.new result }
{
    let i = put(out, at, b" time in");
    let j = put_bound(out, i, from);
    let k = put(out, j, b" ..");
    put_bound(out, k, to)
}

fn sun_is(out: &mut [u8], at: usize, state: Sun) -> usize
    requires { Fits out.old at (further (condition_pieces 0 no_bytes (Condition.SunIs state))) }
    ensures { Put out.old at (further (condition_pieces 0 no_bytes (Condition.SunIs state))) out.new result }
{
    let i = put(out, at, b" sun is");
    put_sun(out, i, state)
}

fn lamp_is(out: &mut [u8], at: usize, primary: u32, r: Ref, state: Power) -> usize
    requires { Fits out.old at (further (condition_pieces primary no_bytes (Condition.LampIs r state))) }
    ensures { Put out.old at (further (condition_pieces primary no_bytes (Condition.LampIs r state))) out.new result }
{
    let i = put_reference(out, at, b" lamp", primary, r);
    let j = put(out, i, b" is");
    put_power(out, j, state)
}

fn lamp_compare(
    out: &mut [u8],
    at: usize,
    primary: u32,
    text: &[u8],
    r: Ref,
    property: LampProperty,
    comparison: Comparison,
    value: Value,
) -> usize
    requires { Fits out.old at (further (condition_pieces primary (name_in text.now) (Condition.LampCompare r property comparison value))) }
    ensures { Put out.old at (further (condition_pieces primary (name_in text.now) (Condition.LampCompare r property comparison value))) out.new result }
{
    let i = put_reference(out, at, b" lamp", primary, r);
    let j = put_property(out, i, property);
    let k = put_comparison(out, j, comparison);
    put_value(out, k, primary, text, value)
}

fn group_state(out: &mut [u8], at: usize, primary: u32, r: Ref, state: Aggregate) -> usize
    requires { Fits out.old at (further (condition_pieces primary no_bytes (Condition.GroupState r state))) }
    ensures { Put out.old at (further (condition_pieces primary no_bytes (Condition.GroupState r state))) out.new result }
{
    let i = put_reference(out, at, b" group", primary, r);
    put_aggregate(out, i, state)
}

fn input_state(out: &mut [u8], at: usize, primary: u32, r: InputRef, state: Occupancy) -> usize
    requires { Fits out.old at (further (condition_pieces primary no_bytes (Condition.InputOccupancy r state))) }
    ensures { Put out.old at (further (condition_pieces primary no_bytes (Condition.InputOccupancy r state))) out.new result }
{
    let i = put_input(out, at, primary, r);
    let j = put(out, i, b" is");
    put_occupancy(out, j, state)
}

fn light_compare(
    out: &mut [u8],
    at: usize,
    primary: u32,
    text: &[u8],
    r: InputRef,
    way: Crossing,
    value: Value,
) -> usize
    requires { Fits out.old at (further (condition_pieces primary (name_in text.now) (Condition.InputLight r way value))) }
    ensures { Put out.old at (further (condition_pieces primary (name_in text.now) (Condition.InputLight r way value))) out.new result }
{
    let i = put_input(out, at, primary, r);
    let j = put(out, i, b" . light");
    let k = put_crossing(out, j, way);
    put_value(out, k, primary, text, value)
}

fn hcl_state(out: &mut [u8], at: usize, primary: u32, to: LightTarget, state: Hcl) -> usize
    requires { Fits out.old at (further (condition_pieces primary no_bytes (Condition.HclState to state))) }
    ensures { Put out.old at (further (condition_pieces primary no_bytes (Condition.HclState to state))) out.new result }
{
    let i = put(out, at, b" hcl is");
    let j = put_hcl(out, i, state);
    let k = put(out, j, b" for");
    put_target(out, k, primary, to)
}

fn device_is_online(out: &mut [u8], at: usize, primary: u32, r: Ref) -> usize
    requires { Fits out.old at (further (condition_pieces primary no_bytes (Condition.DeviceOnline r))) }
    ensures { Put out.old at (further (condition_pieces primary no_bytes (Condition.DeviceOnline r))) out.new result }
{
    let i = put_reference(out, at, b" device", primary, r);
    put(out, i, b" is online")
}

fn last_fired(out: &mut [u8], at: usize, text: &[u8], name: Name, ms: u32) -> usize
    requires { Fits out.old at (further (condition_pieces 0 (name_in text.now) (Condition.LastFiredOlderThan name ms))) }
    ensures { Put out.old at (further (condition_pieces 0 (name_in text.now) (Condition.LastFiredOlderThan name ms))) out.new result }
{
    let i = put(out, at, b" last_fired");
    let j = put_name(out, i, text, name);
    let k = put(out, j, b" older than");
    put_duration(out, k, ms)
}

fn var_compare(
    out: &mut [u8],
    at: usize,
    primary: u32,
    text: &[u8],
    name: Name,
    comparison: Comparison,
    operand: Operand,
) -> usize
    requires { Fits out.old at (further (condition_pieces primary (name_in text.now) (Condition.VarCompare name comparison operand))) }
    ensures { Put out.old at (further (condition_pieces primary (name_in text.now) (Condition.VarCompare name comparison operand))) out.new result }
{
    let i = put(out, at, b" var");
    let j = put_name(out, i, text, name);
    let k = put_comparison(out, j, comparison);
    put_operand(out, k, primary, text, operand)
}

fn day_in(out: &mut [u8], at: usize, days: Days) -> usize
    requires { Fits out.old at (further (condition_pieces 0 no_bytes (Condition.DayIn days))) }
    ensures { Put out.old at (further (condition_pieces 0 no_bytes (Condition.DayIn days))) out.new result }
{
    let i = put(out, at, b" day in");
    put_days(out, i, days)
}

pub fn put_condition(out: &mut [u8], at: usize, primary: u32, text: &[u8], y: Condition) -> usize
    requires { Fits out.old at (further (condition_pieces primary (name_in text.now) y)) }
    ensures { Put out.old at (further (condition_pieces primary (name_in text.now) y)) out.new result }
{
    match y {
        Condition::TimeInRange(from, to) => time_in_range(out, at, from, to),
        Condition::SunIs(state) => sun_is(out, at, state),
        Condition::LampIs(r, state) => lamp_is(out, at, primary, r, state),
        Condition::LampCompare(r, property, comparison, value) => lamp_compare(
            out, at, primary, text, r, property, comparison, value,
        ),
        Condition::GroupState(r, state) => group_state(out, at, primary, r, state),
        Condition::InputOccupancy(r, state) => input_state(out, at, primary, r, state),
        Condition::InputLight(r, way, value) => light_compare(
            out, at, primary, text, r, way, value,
        ),
        Condition::HclState(to, state) => hcl_state(out, at, primary, to, state),
        Condition::DeviceOnline(r) => device_is_online(out, at, primary, r),
        Condition::RuleEnabled(name) => put_named(out, at, b" rule", text, name, b" is enabled"),
        Condition::LastFiredOlderThan(name, ms) => last_fired(out, at, text, name, ms),
        Condition::TimerRunning(name) => put_named(out, at, b" timer", text, name, b" is running"),
        Condition::ControllerActive => put(out, at, b" controller is active"),
        Condition::VarCompare(name, comparison, operand) => var_compare(
            out, at, primary, text, name, comparison, operand,
        ),
        Condition::DayIn(days) => day_in(out, at, days),
    }
}
