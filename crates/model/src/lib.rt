// The values that a rule is read as: references, time bounds, readings, triggers, conditions, and the answer of a call.
// The numbers of the choices are those of the answer's words (include/tergyosul.h).
#![tactic(auto)]

pub mod limits;

ghost use Rattle.std.specs.Prelude.{◌≡◌, []};
ghost use Rattle.model.specs.Lists.{triggers_of, conditions_of, refused_with};

// A name or other string: the range of its bytes in the rule text, inside the quotes.
#[derive(Clone, Copy)]
pub struct Name {
    pub start: u32,
    pub length: u32,
}

// What a reference is to: an adapter and a number on it. Which kind it is, the form around it says.
#[derive(Clone, Copy)]
pub struct Ref {
    pub adapter: u32,
    pub number: u32,
}

// The highest number of each kind of reference.
impl Ref {
    pub const MAX_LAMP: u32 = 63;

    pub const MAX_GROUP: u32 = 15;

    pub const MAX_DEVICE: u32 = 63;

    pub const MAX_INPUT: u32 = 63;

    pub fn new(adapter: u32, number: u32) -> Self
        ensures { result ≡ record { adapter = adapter; number = number } }
    {
        Ref { adapter, number }
    }
}

// An instance of an input device.
#[derive(Clone, Copy)]
pub struct InputRef {
    pub device: Ref,
    pub instance: u32,
}

// What `input(…)` selects: an instance of a device, or a group of instances on an adapter, perhaps of one type.
#[derive(Clone, Copy)]
pub enum Selector {
    Instance(Ref, u32),
    Group(u32, u32, Option<u32>),
}

#[derive(Clone, Copy)]
pub enum LightTarget {
    Lamp(Ref),
    Group(Ref),
    Broadcast(u32),
}

// A set of days: the sum of 1 for Monday, 2 for Tuesday, and so on to 64 for Sunday.
#[derive(Clone, Copy)]
pub struct Days {
    pub sum: u32,
}

#[derive(Clone, Copy)]
pub enum SolarEvent {
    Sunrise = 1,
    Sunset,
}

// A time of day in minutes since midnight, or a solar event with an offset in milliseconds.
#[derive(Clone, Copy)]
pub enum TimeBound {
    Clock(u32),
    Solar(SolarEvent, i32),
}

#[derive(Clone, Copy)]
pub enum Event {
    Press,
    Release,
    ShortPress,
    DoublePress,
    LongPressStart,
    LongPressRepeat,
    LongPressStop,
    ButtonFree,
    ButtonStuck,
    Movement,
    NoMovement,
    AnyEvent,
    Raw(u32),
}

#[derive(Clone, Copy)]
pub enum Occupancy {
    Occupied = 1,
    Vacant,
}

#[derive(Clone, Copy)]
pub enum Crossing {
    Above = 1,
    Below,
}

#[derive(Clone, Copy)]
pub enum Power {
    On = 1,
    Off,
}

#[derive(Clone, Copy)]
pub enum Aggregate {
    AnyOn = 1,
    AllOff,
}

#[derive(Clone, Copy)]
pub enum Online {
    GoesOffline = 1,
    ComesOnline,
}

#[derive(Clone, Copy)]
pub enum Override {
    Starts = 1,
    Clears,
}

#[derive(Clone, Copy)]
pub enum Trigger {
    InputEvent(Selector, Event),
    InputOccupancy(InputRef, Occupancy),
    // the threshold is 0 to 1023
    InputLightCross(InputRef, Crossing, u32),
    InputPositionChange(InputRef),
    InputDevicePowerCycled(Ref),
    InputDeviceManualConfigChanged(Ref),
    // in minutes since midnight, and on which days
    AtTime(u32, Days),
    // with an offset in milliseconds, and on which days
    AtSolar(SolarEvent, i32, Days),
    // in milliseconds
    Every(u32),
    LampTurns(Ref, Power),
    // the threshold is 0 to 254
    LampLevelCross(Ref, Crossing, u32),
    GroupBecomes(Ref, Aggregate),
    // adapter and scene
    SceneRecalled(u32, u32),
    DeviceOnline(Ref, Online),
    HclOverride(LightTarget, Override),
    TimerFires(Name),
    ControllerStarts,
    ControllerBecomesActive,
    RuleFails(Name),
    HttpTrigger,
    // with its topic
    MqttMessage(Name),
}

#[derive(Clone, Copy)]
pub enum LampReading {
    Level = 1,
    Cct,
    IsOn,
    LastLevel,
}

#[derive(Clone, Copy)]
pub enum GroupReading {
    AnyOn = 5,
    AllOff,
    MemberCount,
}

#[derive(Clone, Copy)]
pub enum InputReading {
    Occupied = 8,
    Light,
    Position,
    LastEventAge,
}

#[derive(Clone, Copy)]
pub enum TimeReading {
    Now = 12,
    Hour,
    Minute,
    Weekday,
}

#[derive(Clone, Copy)]
pub enum SunReading {
    Rise = 16,
    Set,
    IsUp,
}

#[derive(Clone, Copy)]
pub enum EventReading {
    Value = 19,
    Device,
    Instance,
    Option,
}

// What is read while the controller runs: of what, and which property.
#[derive(Clone, Copy)]
pub enum Reading {
    Lamp(Ref, LampReading),
    Group(Ref, GroupReading),
    Input(InputRef, InputReading),
    Time(TimeReading),
    Sun(SunReading),
    Event(EventReading),
    Var(Name),
}

// A number, or a reading with perhaps a number added.
#[derive(Clone, Copy)]
pub enum Value {
    Literal(i64),
    Reads(Reading, Option<i64>),
}

#[derive(Clone, Copy)]
pub enum Sun {
    Up = 1,
    Down,
}

#[derive(Clone, Copy)]
pub enum Hcl {
    Enabled = 1,
    Overridden,
}

#[derive(Clone, Copy)]
pub enum Comparison {
    Eq = 1,
    Ne,
    Ge,
    Le,
    Gt,
    Lt,
}

// A lamp's property that a condition can compare.
#[derive(Clone, Copy)]
pub enum LampProperty {
    Level = 4,
    Cct,
}

// What a var is compared with.
#[derive(Clone, Copy)]
pub enum Operand {
    Text(Name),
    Number(Value),
}

#[derive(Clone, Copy)]
pub enum Condition {
    TimeInRange(TimeBound, TimeBound),
    SunIs(Sun),
    LampIs(Ref, Power),
    LampCompare(Ref, LampProperty, Comparison, Value),
    GroupState(Ref, Aggregate),
    InputOccupancy(InputRef, Occupancy),
    InputLight(InputRef, Crossing, Value),
    HclState(LightTarget, Hcl),
    DeviceOnline(Ref),
    RuleEnabled(Name),
    // in milliseconds
    LastFiredOlderThan(Name, u32),
    TimerRunning(Name),
    ControllerActive,
    VarCompare(Name, Comparison, Operand),
    DayIn(Days),
}

// The finished lists: four records each, of which the first count are in use. They are arrays with a count, since nothing is put on the heap.
#[derive(Clone, Copy)]
pub struct TriggerRow {
    pub trigger: Trigger,
}

#[derive(Clone, Copy)]
pub struct Triggers {
    pub rows: [TriggerRow; 4],
    pub count: usize,
}

#[derive(Clone, Copy)]
pub struct ConditionRow {
    pub condition: Condition,
}

#[derive(Clone, Copy)]
pub struct Conditions {
    pub rows: [ConditionRow; 4],
    pub count: usize,
}

// The answer to a whole call: four zeros and the lists, or a refusal's number, place and detail with empty lists. The number says which,
// as include/tergyosul.h has it for C.
#[derive(Clone, Copy)]
pub struct Answer {
    pub number: u32,
    pub line: u32,
    pub column: u32,
    pub detail: u32,
    pub triggers: Triggers,
    pub conditions: Conditions,
}

pub fn no_triggers() -> Triggers
    ensures { result ≡ triggers_of [] }
{
    Triggers {
        rows: [TriggerRow {
            trigger: Trigger::HttpTrigger,
        }; 4],
        count: 0,
    }
}

pub fn no_conditions() -> Conditions
    ensures { result ≡ conditions_of [] }
{
    Conditions {
        rows: [ConditionRow {
            condition: Condition::ControllerActive,
        }; 4],
        count: 0,
    }
}

// A refusal has empty lists.
pub fn refused(number: u32, line: u32, column: u32, detail: u32) -> Answer
    ensures { result ≡ refused_with number line column detail }
{
    Answer {
        number,
        line,
        column,
        detail,
        triggers: no_triggers(),
        conditions: no_conditions(),
    }
}
