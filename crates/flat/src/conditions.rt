// The rows of conditions (specs/Flat.antt).
ghost use Rattle.std.specs.Prelude.{◌≡◌, ◌∷◌};
ghost use Rattle.model.specs.declared.Condition.TheVariants.{TimeInRange, InputLight, HclState, VarCompare};
ghost use Rattle.flat.specs.Codes.{comparison_code};
ghost use Rattle.flat.specs.Flat.{value_words, condition_words, whole_row};

use crate::parts;
use crate::rows::{Row, row};
use model::{
    Comparison, Condition, Crossing, Hcl, InputRef, LightTarget, Name, Operand, TimeBound, Value,
};

#[tactic(auto, unfolding(crate::specs::Flat::condition_words))]
fn range_row(start: TimeBound, end: TimeBound) -> Row
    ensures { result ≡ whole_row (condition_words (TimeInRange start end)) }
{
    let [from, a, b] = parts::bound(start);
    let [to, c, d] = parts::bound(end);
    row(&[1, from, a, b, to, c, d])
}

// Two numbers that say what is compared, and with what value.
fn compared_row(kind: u32, a: u32, b: u32, c: Comparison, v: Value) -> Row
    ensures { result ≡ whole_row (kind ∷ a ∷ b ∷ comparison_code c ∷ value_words v) }
{
    let [form, code, d, e, f, low, high] = parts::value(v);
    row(&[kind, a, b, c as u32, form, code, d, e, f, low, high])
}

#[tactic(auto, unfolding(crate::specs::Flat::condition_words))]
fn light_row(r: InputRef, way: Crossing, v: Value) -> Row
    ensures { result ≡ whole_row (condition_words (InputLight r way v)) }
{
    let [form, code, a, b, c, low, high] = parts::value(v);
    let InputRef { device, instance } = r;
    row(&[
        8,
        device.adapter,
        device.number,
        instance,
        way as u32,
        form,
        code,
        a,
        b,
        c,
        low,
        high,
    ])
}

#[tactic(auto, unfolding(crate::specs::Flat::condition_words))]
fn state_row(to: LightTarget, h: Hcl) -> Row
    ensures { result ≡ whole_row (condition_words (HclState to h)) }
{
    let [kind, a, b] = parts::light_target(to);
    row(&[9, kind, a, b, h as u32])
}

#[tactic(auto, unfolding(crate::specs::Flat::condition_words, crate::specs::Flat::operand_words))]
fn var_row(n: Name, c: Comparison, x: Operand) -> Row
    ensures { result ≡ whole_row (condition_words (VarCompare n c x)) }
{
    match x {
        Operand::Text(t) => row(&[15, n.start, n.length, c as u32, 4, t.start, t.length]),
        Operand::Number(v) => compared_row(15, n.start, n.length, c, v),
    }
}

#[tactic(auto, unfolding(crate::specs::Flat::condition_words))]
pub fn condition_row(x: Condition) -> Row
    ensures { result ≡ whole_row (condition_words x) }
{
    match x {
        Condition::TimeInRange(start, end) => range_row(start, end),
        Condition::SunIs(s) => row(&[2, s as u32]),
        Condition::LampIs(r, p) => row(&[3, r.adapter, r.number, p as u32]),
        Condition::LampCompare(r, p, c, v) => compared_row(p as u32, r.adapter, r.number, c, v),
        Condition::GroupState(r, a) => row(&[6, r.adapter, r.number, a as u32]),
        Condition::InputOccupancy(r, o) => {
            row(&[7, r.device.adapter, r.device.number, r.instance, o as u32])
        }
        Condition::InputLight(r, way, v) => light_row(r, way, v),
        Condition::HclState(to, h) => state_row(to, h),
        Condition::DeviceOnline(r) => row(&[10, r.adapter, r.number]),
        Condition::RuleEnabled(n) => row(&[11, n.start, n.length]),
        Condition::LastFiredOlderThan(n, ms) => row(&[12, n.start, n.length, ms]),
        Condition::TimerRunning(n) => row(&[13, n.start, n.length]),
        Condition::ControllerActive => row(&[14]),
        Condition::VarCompare(n, c, o) => var_row(n, c, o),
        Condition::DayIn(days) => row(&[16, days.sum]),
    }
}
