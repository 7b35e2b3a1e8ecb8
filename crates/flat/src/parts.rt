// The parts of a row (specs/Flat.antt), as the words that they are written in.
ghost use Rattle.std.specs.Prelude.{◌≡◌};
ghost use Rattle.flat.specs.Flat.{selector_words, event_words, target_words, bound_words, reading_words, value_words};

use crate::codes;
use model::{Event, LightTarget, Reading, Selector, TimeBound, Value};

#[tactic(auto, unfolding(crate::specs::Flat::selector_words))]
pub fn selector(x: Selector) -> [u32; 4]
    ensures { result ≡ selector_words x }
{
    match x {
        Selector::Instance(device, instance) => [1, device.adapter, device.number, instance],
        Selector::Group(adapter, group, of) => [2, adapter, group, codes::type_or_none(of)],
    }
}

#[tactic(auto, unfolding(crate::specs::Flat::event_words))]
pub fn event(x: Event) -> [u32; 2]
    ensures { result ≡ event_words x }
{
    match x {
        Event::Press => [1, 0],
        Event::Release => [2, 0],
        Event::ShortPress => [3, 0],
        Event::DoublePress => [4, 0],
        Event::LongPressStart => [5, 0],
        Event::LongPressRepeat => [6, 0],
        Event::LongPressStop => [7, 0],
        Event::ButtonFree => [8, 0],
        Event::ButtonStuck => [9, 0],
        Event::Movement => [10, 0],
        Event::NoMovement => [11, 0],
        Event::AnyEvent => [12, 0],
        Event::Raw(data) => [13, data],
    }
}

#[tactic(auto, unfolding(crate::specs::Flat::target_words))]
pub fn light_target(x: LightTarget) -> [u32; 3]
    ensures { result ≡ target_words x }
{
    match x {
        LightTarget::Lamp(lamp) => [1, lamp.adapter, lamp.number],
        LightTarget::Group(group) => [2, group.adapter, group.number],
        LightTarget::Broadcast(adapter) => [3, adapter, 0],
    }
}

#[tactic(auto, unfolding(crate::specs::Flat::bound_words))]
pub fn bound(x: TimeBound) -> [u32; 3]
    ensures { result ≡ bound_words x }
{
    match x {
        TimeBound::Clock(m) => [1, m, 0],
        TimeBound::Solar(e, ms) => [2, e as u32, codes::offset(ms)],
    }
}

#[tactic(auto, unfolding(crate::specs::Flat::reading_words))]
fn reading(x: Reading) -> [u32; 4]
    ensures { result ≡ reading_words x }
{
    match x {
        Reading::Lamp(r, p) => [p as u32, r.adapter, r.number, 0],
        Reading::Group(r, p) => [p as u32, r.adapter, r.number, 0],
        Reading::Input(r, p) => [p as u32, r.device.adapter, r.device.number, r.instance],
        Reading::Time(p) => [p as u32, 0, 0, 0],
        Reading::Sun(p) => [p as u32, 0, 0, 0],
        Reading::Event(p) => [p as u32, 0, 0, 0],
        Reading::Var(n) => [codes::VAR, n.start, n.length, 0],
    }
}

#[tactic(auto, unfolding(crate::specs::Flat::value_words))]
pub fn value(x: Value) -> [u32; 7]
    ensures { result ≡ value_words x }
{
    match x {
        Value::Literal(z) => [1, 0, 0, 0, 0, codes::low_word(z), codes::high_word(z)],
        Value::Reads(r, None) => {
            let [code, a, b, c] = reading(r);
            [2, code, a, b, c, 0, 0]
        }
        Value::Reads(r, Some(z)) => {
            let [code, a, b, c] = reading(r);
            [3, code, a, b, c, codes::low_word(z), codes::high_word(z)]
        }
    }
}
