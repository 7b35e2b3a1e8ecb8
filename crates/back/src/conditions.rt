// Conditions, each from its row (flat/specs/Back.antt).
#![tactic(auto, unfolding(flat::specs::Back::sun_back, flat::specs::Back::power_back, flat::specs::Back::aggregate_back, flat::specs::Back::occupancy_back, flat::specs::Back::crossing_back, flat::specs::Back::hcl_back, flat::specs::Back::headed, flat::specs::Back::coded, flat::specs::Back::condition_back, flat::specs::Flat::condition_words))]

ghost use Rattle.std.specs.Prelude.{◌≡◌};
ghost use Rattle.flat.specs.Back.{condition_back};

use crate::choices::{comparison_back, either};
use crate::parts;
use flat::rows::Row;
use model::{
    Aggregate, Condition, Crossing, Days, Hcl, InputRef, LampProperty, Name, Occupancy, Power, Ref,
    Sun,
};

// A row whose kind no condition has is taken for the last one's.
pub fn condition_back(row: Row) -> Condition
    ensures { result ≡ condition_back row }
{
    let [kind, a, b, c, d, e, f, ..] = row;
    let r = Ref::new(a, b);
    let input = InputRef {
        device: r,
        instance: c,
    };
    let name = Name {
        start: a,
        length: b,
    };
    match kind {
        1 => Condition::TimeInRange(parts::bound_back(a, b, c), parts::bound_back(d, e, f)),
        2 => Condition::SunIs(either(a, Sun::Up, Sun::Down)),
        3 => Condition::LampIs(r, either(c, Power::On, Power::Off)),
        4 => Condition::LampCompare(
            r,
            LampProperty::Level,
            comparison_back(c),
            parts::value_at(&row, 4),
        ),
        5 => Condition::LampCompare(
            r,
            LampProperty::Cct,
            comparison_back(c),
            parts::value_at(&row, 4),
        ),
        6 => Condition::GroupState(r, either(c, Aggregate::AnyOn, Aggregate::AllOff)),
        7 => Condition::InputOccupancy(input, either(d, Occupancy::Occupied, Occupancy::Vacant)),
        8 => Condition::InputLight(
            input,
            either(d, Crossing::Above, Crossing::Below),
            parts::value_at(&row, 5),
        ),
        9 => Condition::HclState(
            parts::target_back(a, b, c),
            either(d, Hcl::Enabled, Hcl::Overridden),
        ),
        10 => Condition::DeviceOnline(r),
        11 => Condition::RuleEnabled(name),
        12 => Condition::LastFiredOlderThan(name, c),
        13 => Condition::TimerRunning(name),
        14 => Condition::ControllerActive,
        15 => Condition::VarCompare(name, comparison_back(c), parts::operand_at(&row)),
        _ => Condition::DayIn(Days { sum: a }),
    }
}
