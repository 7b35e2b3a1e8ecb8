// The rows of triggers (specs/Flat.antt).
ghost use Rattle.std.specs.Prelude.{◌≡◌};
ghost use Rattle.model.specs.declared.Trigger.TheVariants.{InputEvent, HclOverride};
ghost use Rattle.flat.specs.Flat.{trigger_words, whole_row};

use crate::rows::{Row, row};
use crate::{codes, parts};
use model::{Event, LightTarget, Override, Selector, Trigger};

#[tactic(auto, unfolding(crate::specs::Flat::trigger_words))]
fn event_row(s: Selector, e: Event) -> Row
    ensures { result ≡ whole_row (trigger_words (InputEvent s e)) }
{
    let [kind, a, b, c] = parts::selector(s);
    let [code, data] = parts::event(e);
    row(&[1, kind, a, b, c, code, data])
}

#[tactic(auto, unfolding(crate::specs::Flat::trigger_words))]
fn override_row(to: LightTarget, o: Override) -> Row
    ensures { result ≡ whole_row (trigger_words (HclOverride to o)) }
{
    let [kind, a, b] = parts::light_target(to);
    row(&[15, kind, a, b, o as u32])
}

#[tactic(auto, unfolding(crate::specs::Flat::trigger_words))]
pub fn trigger_row(x: Trigger) -> Row
    ensures { result ≡ whole_row (trigger_words x) }
{
    match x {
        Trigger::InputEvent(s, e) => event_row(s, e),
        Trigger::InputOccupancy(r, o) => {
            row(&[2, r.device.adapter, r.device.number, r.instance, o as u32])
        }
        Trigger::InputLightCross(r, way, n) => {
            row(&[
                3,
                r.device.adapter,
                r.device.number,
                r.instance,
                way as u32,
                n,
            ])
        }
        Trigger::InputPositionChange(r) => {
            row(&[4, r.device.adapter, r.device.number, r.instance])
        }
        Trigger::InputDevicePowerCycled(r) => row(&[5, r.adapter, r.number]),
        Trigger::InputDeviceManualConfigChanged(r) => row(&[6, r.adapter, r.number]),
        Trigger::AtTime(m, days) => row(&[7, m, days.sum]),
        Trigger::AtSolar(e, ms, days) => row(&[8, e as u32, codes::offset(ms), days.sum]),
        Trigger::Every(ms) => row(&[9, ms]),
        Trigger::LampTurns(r, to) => row(&[10, r.adapter, r.number, to as u32]),
        Trigger::LampLevelCross(r, way, n) => row(&[11, r.adapter, r.number, way as u32, n]),
        Trigger::GroupBecomes(r, a) => row(&[12, r.adapter, r.number, a as u32]),
        Trigger::SceneRecalled(adapter, scene) => row(&[13, adapter, scene]),
        Trigger::DeviceOnline(r, o) => row(&[14, r.adapter, r.number, o as u32]),
        Trigger::HclOverride(to, o) => override_row(to, o),
        Trigger::TimerFires(n) => row(&[16, n.start, n.length]),
        Trigger::ControllerStarts => row(&[17]),
        Trigger::ControllerBecomesActive => row(&[18]),
        Trigger::RuleFails(n) => row(&[19, n.start, n.length]),
        Trigger::HttpTrigger => row(&[20]),
        Trigger::MqttMessage(topic) => row(&[21, topic.start, topic.length]),
    }
}
