// The parts of a row, each from its words (flat/specs/Back.antt). A kind or code that no part has is taken for the last one.
#![tactic(auto, unfolding(flat::specs::Back::solar_back, flat::specs::Back::headed, flat::specs::Back::coded, flat::specs::Back::selector_back, flat::specs::Back::event_back, flat::specs::Back::target_back, flat::specs::Back::bound_back, flat::specs::Back::reading_back, flat::specs::Back::value_back, flat::specs::Back::operand_back, flat::specs::Flat::selector_words, flat::specs::Flat::event_words, flat::specs::Flat::target_words, flat::specs::Flat::bound_words, flat::specs::Flat::reading_words, flat::specs::Flat::value_words, flat::specs::Flat::operand_words))]

ghost use Rattle.std.specs.Prelude.{◌≡◌, ◌+◌, ◌≤◌};
ghost use Rattle.flat.specs.Back.{word, selector_back, event_back, target_back, bound_back, reading_back, value_back, operand_back};

use crate::choices::either;
use crate::numbers;
use flat::rows::Row;
use model::{
    Event, EventReading, GroupReading, InputReading, InputRef, LampReading, LightTarget, Name,
    Operand, Reading, Ref, Selector, SolarEvent, SunReading, TimeBound, TimeReading, Value,
};

pub fn selector_back(n: u32, a: u32, b: u32, c: u32) -> Selector
    ensures { result ≡ selector_back n a b c }
{
    match n {
        1 => Selector::Instance(Ref::new(a, b), c),
        _ => Selector::Group(a, b, numbers::type_back(c)),
    }
}

pub fn event_back(n: u32, a: u32) -> Event
    ensures { result ≡ event_back n a }
{
    match n {
        1 => Event::Press,
        2 => Event::Release,
        3 => Event::ShortPress,
        4 => Event::DoublePress,
        5 => Event::LongPressStart,
        6 => Event::LongPressRepeat,
        7 => Event::LongPressStop,
        8 => Event::ButtonFree,
        9 => Event::ButtonStuck,
        10 => Event::Movement,
        11 => Event::NoMovement,
        12 => Event::AnyEvent,
        _ => Event::Raw(a),
    }
}

pub fn target_back(n: u32, a: u32, b: u32) -> LightTarget
    ensures { result ≡ target_back n a b }
{
    match n {
        1 => LightTarget::Lamp(Ref::new(a, b)),
        2 => LightTarget::Group(Ref::new(a, b)),
        _ => LightTarget::Broadcast(a),
    }
}

pub fn bound_back(n: u32, a: u32, b: u32) -> TimeBound
    ensures { result ≡ bound_back n a b }
{
    match n {
        1 => TimeBound::Clock(a),
        _ => TimeBound::Solar(
            either(a, SolarEvent::Sunrise, SolarEvent::Sunset),
            numbers::offset_back(b),
        ),
    }
}

pub fn reading_back(n: u32, a: u32, b: u32, c: u32) -> Reading
    ensures { result ≡ reading_back n a b c }
{
    let r = Ref::new(a, b);
    let input = InputRef {
        device: r,
        instance: c,
    };
    match n {
        1 => Reading::Lamp(r, LampReading::Level),
        2 => Reading::Lamp(r, LampReading::Cct),
        3 => Reading::Lamp(r, LampReading::IsOn),
        4 => Reading::Lamp(r, LampReading::LastLevel),
        5 => Reading::Group(r, GroupReading::AnyOn),
        6 => Reading::Group(r, GroupReading::AllOff),
        7 => Reading::Group(r, GroupReading::MemberCount),
        8 => Reading::Input(input, InputReading::Occupied),
        9 => Reading::Input(input, InputReading::Light),
        10 => Reading::Input(input, InputReading::Position),
        11 => Reading::Input(input, InputReading::LastEventAge),
        12 => Reading::Time(TimeReading::Now),
        13 => Reading::Time(TimeReading::Hour),
        14 => Reading::Time(TimeReading::Minute),
        15 => Reading::Time(TimeReading::Weekday),
        16 => Reading::Sun(SunReading::Rise),
        17 => Reading::Sun(SunReading::Set),
        18 => Reading::Sun(SunReading::IsUp),
        19 => Reading::Event(EventReading::Value),
        20 => Reading::Event(EventReading::Device),
        21 => Reading::Event(EventReading::Instance),
        22 => Reading::Event(EventReading::Option),
        _ => Reading::Var(Name {
            start: a,
            length: b,
        }),
    }
}

// The value whose words begin at an index of a row.
pub(crate) fn value_at(row: &Row, at: usize) -> Value
    requires { at ≤ 5 }
    ensures { result ≡ value_back (word row.now at) (word row.now (at + 1)) (word row.now (at + 2)) (word row.now (at + 3)) (word row.now (at + 4)) (word row.now (at + 5)) (word row.now (at + 6)) }
{
    let reading = reading_back(row[at + 1], row[at + 2], row[at + 3], row[at + 4]);
    let number = numbers::number_back(row[at + 5], row[at + 6]);
    match row[at] {
        1 => Value::Literal(number),
        2 => Value::Reads(reading, None),
        _ => Value::Reads(reading, Some(number)),
    }
}

// What a var is compared with.
pub(crate) fn operand_at(row: &Row) -> Operand
    ensures { result ≡ operand_back (word row.now 4) (word row.now 5) (word row.now 6) (word row.now 7) (word row.now 8) (word row.now 9) (word row.now 10) }
{
    match row[4] {
        4 => Operand::Text(Name {
            start: row[5],
            length: row[6],
        }),
        _ => Operand::Number(value_at(row, 4)),
    }
}
