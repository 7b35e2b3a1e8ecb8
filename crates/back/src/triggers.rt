// Triggers, each from its row (flat/specs/Back.antt).
#![tactic(auto, unfolding(flat::specs::Back::power_back, flat::specs::Back::aggregate_back, flat::specs::Back::occupancy_back, flat::specs::Back::crossing_back, flat::specs::Back::online_back, flat::specs::Back::override_back, flat::specs::Back::solar_back, flat::specs::Back::headed, flat::specs::Back::coded, flat::specs::Back::trigger_back, flat::specs::Flat::trigger_words))]

ghost use Rattle.std.specs.Prelude.{◌≡◌};
ghost use Rattle.flat.specs.Back.{trigger_back};

use crate::choices::either;
use crate::{numbers, parts};
use flat::rows::Row;
use model::{
    Aggregate, Crossing, Days, InputRef, Name, Occupancy, Online, Override, Power, Ref, SolarEvent,
    Trigger,
};

// A row whose kind no trigger has is taken for the last one's.
pub fn trigger_back(row: Row) -> Trigger
    ensures { result ≡ trigger_back row }
{
    let [kind, a, b, c, d, e, f, ..] = row;
    let r = Ref::new(a, b);
    let input = InputRef {
        device: r,
        instance: c,
    };
    let name = Name {
        start: a,
        length: b,
    };
    match kind {
        1 => Trigger::InputEvent(parts::selector_back(a, b, c, d), parts::event_back(e, f)),
        2 => Trigger::InputOccupancy(input, either(d, Occupancy::Occupied, Occupancy::Vacant)),
        3 => Trigger::InputLightCross(input, either(d, Crossing::Above, Crossing::Below), e),
        4 => Trigger::InputPositionChange(input),
        5 => Trigger::InputDevicePowerCycled(r),
        6 => Trigger::InputDeviceManualConfigChanged(r),
        7 => Trigger::AtTime(a, Days { sum: b }),
        8 => Trigger::AtSolar(
            either(a, SolarEvent::Sunrise, SolarEvent::Sunset),
            numbers::offset_back(b),
            Days { sum: c },
        ),
        9 => Trigger::Every(a),
        10 => Trigger::LampTurns(r, either(c, Power::On, Power::Off)),
        11 => Trigger::LampLevelCross(r, either(c, Crossing::Above, Crossing::Below), d),
        12 => Trigger::GroupBecomes(r, either(c, Aggregate::AnyOn, Aggregate::AllOff)),
        13 => Trigger::SceneRecalled(a, b),
        14 => Trigger::DeviceOnline(r, either(c, Online::GoesOffline, Online::ComesOnline)),
        15 => Trigger::HclOverride(
            parts::target_back(a, b, c),
            either(d, Override::Starts, Override::Clears),
        ),
        16 => Trigger::TimerFires(name),
        17 => Trigger::ControllerStarts,
        18 => Trigger::ControllerBecomesActive,
        19 => Trigger::RuleFails(name),
        20 => Trigger::HttpTrigger,
        _ => Trigger::MqttMessage(name),
    }
}
