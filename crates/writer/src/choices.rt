// Choices, each by its word.
ghost use Rattle.std.specs.Prelude.{◌≡◌, [], ◌∷◌, ◌++◌};
ghost use Rattle.tokens.specs.Kind.{POINT};
ghost use Rattle.writing.specs.Pieces.{Piece, words, further};
ghost use Rattle.spelling.specs.Put.{Put, Fits};
ghost use Rattle.writing.specs.Write.{aggregate_word, comparison_sign, crossing_word, event_reading_word, group_reading_word, hcl_word, input_reading_word, lamp_reading_word, occupancy_word, online_words, override_word, power_word, property_word, sun_reading_word, sun_word, time_reading_word};

use model::{
    Aggregate, Comparison, Crossing, EventReading, GroupReading, Hcl, InputReading, LampProperty,
    LampReading, Occupancy, Online, Override, Power, Sun, SunReading, TimeReading,
};
use spelling::put::put;

pub fn put_power(out: &mut [u8], at: usize, power: Power) -> usize
    requires { Fits out.old at (further (Piece.word (power_word power) ∷ [])) }
    ensures { Put out.old at (further (Piece.word (power_word power) ∷ [])) out.new result }
{
    match power {
        Power::On => put(out, at, b" on"),
        Power::Off => put(out, at, b" off"),
    }
}

pub fn put_occupancy(out: &mut [u8], at: usize, state: Occupancy) -> usize
    requires { Fits out.old at (further (Piece.word (occupancy_word state) ∷ [])) }
    ensures { Put out.old at (further (Piece.word (occupancy_word state) ∷ [])) out.new result }
{
    match state {
        Occupancy::Occupied => put(out, at, b" occupied"),
        Occupancy::Vacant => put(out, at, b" vacant"),
    }
}

pub fn put_crossing(out: &mut [u8], at: usize, way: Crossing) -> usize
    requires { Fits out.old at (further (Piece.word (crossing_word way) ∷ [])) }
    ensures { Put out.old at (further (Piece.word (crossing_word way) ∷ [])) out.new result }
{
    match way {
        Crossing::Above => put(out, at, b" above"),
        Crossing::Below => put(out, at, b" below"),
    }
}

pub fn put_aggregate(out: &mut [u8], at: usize, state: Aggregate) -> usize
    requires { Fits out.old at (further (Piece.word (aggregate_word state) ∷ [])) }
    ensures { Put out.old at (further (Piece.word (aggregate_word state) ∷ [])) out.new result }
{
    match state {
        Aggregate::AnyOn => put(out, at, b" any_on"),
        Aggregate::AllOff => put(out, at, b" all_off"),
    }
}

pub fn put_override(out: &mut [u8], at: usize, change: Override) -> usize
    requires { Fits out.old at (further (Piece.word (override_word change) ∷ [])) }
    ensures { Put out.old at (further (Piece.word (override_word change) ∷ [])) out.new result }
{
    match change {
        Override::Starts => put(out, at, b" starts"),
        Override::Clears => put(out, at, b" clears"),
    }
}

pub fn put_sun(out: &mut [u8], at: usize, sun: Sun) -> usize
    requires { Fits out.old at (further (Piece.word (sun_word sun) ∷ [])) }
    ensures { Put out.old at (further (Piece.word (sun_word sun) ∷ [])) out.new result }
{
    match sun {
        Sun::Up => put(out, at, b" up"),
        Sun::Down => put(out, at, b" down"),
    }
}

pub fn put_hcl(out: &mut [u8], at: usize, state: Hcl) -> usize
    requires { Fits out.old at (further (Piece.word (hcl_word state) ∷ [])) }
    ensures { Put out.old at (further (Piece.word (hcl_word state) ∷ [])) out.new result }
{
    match state {
        Hcl::Enabled => put(out, at, b" enabled"),
        Hcl::Overridden => put(out, at, b" overridden"),
    }
}

pub fn put_online(out: &mut [u8], at: usize, change: Online) -> usize
    requires { Fits out.old at (further (words (online_words change))) }
    ensures { Put out.old at (further (words (online_words change))) out.new result }
{
    match change {
        Online::GoesOffline => put(out, at, b" goes offline"),
        Online::ComesOnline => put(out, at, b" comes online"),
    }
}

pub fn put_comparison(out: &mut [u8], at: usize, comparison: Comparison) -> usize
    requires { Fits out.old at (further (Piece.sign (comparison_sign comparison) ∷ [])) }
    ensures { Put out.old at (further (Piece.sign (comparison_sign comparison) ∷ [])) out.new result }
{
    match comparison {
        Comparison::Eq => put(out, at, b" =="),
        Comparison::Ne => put(out, at, b" !="),
        Comparison::Ge => put(out, at, b" >="),
        Comparison::Le => put(out, at, b" <="),
        Comparison::Gt => put(out, at, b" >"),
        Comparison::Lt => put(out, at, b" <"),
    }
}

pub fn put_property(out: &mut [u8], at: usize, property: LampProperty) -> usize
    requires { Fits out.old at (further (Piece.sign POINT ∷ Piece.word (property_word property) ∷ [])) }
    ensures { Put out.old at (further (Piece.sign POINT ∷ Piece.word (property_word property) ∷ [])) out.new result }
{
    match property {
        LampProperty::Level => put(out, at, b" . level"),
        LampProperty::Cct => put(out, at, b" . cct"),
    }
}

pub fn put_lamp_reading(out: &mut [u8], at: usize, property: LampReading) -> usize
    requires { Fits out.old at (further (Piece.sign POINT ∷ Piece.word (lamp_reading_word property) ∷ [])) }
    ensures { Put out.old at (further (Piece.sign POINT ∷ Piece.word (lamp_reading_word property) ∷ [])) out.new result }
{
    match property {
        LampReading::Level => put(out, at, b" . level"),
        LampReading::Cct => put(out, at, b" . cct"),
        LampReading::IsOn => put(out, at, b" . is_on"),
        LampReading::LastLevel => put(out, at, b" . last_level"),
    }
}

pub fn put_group_reading(out: &mut [u8], at: usize, property: GroupReading) -> usize
    requires { Fits out.old at (further (Piece.sign POINT ∷ Piece.word (group_reading_word property) ∷ [])) }
    ensures { Put out.old at (further (Piece.sign POINT ∷ Piece.word (group_reading_word property) ∷ [])) out.new result }
{
    match property {
        GroupReading::AnyOn => put(out, at, b" . any_on"),
        GroupReading::AllOff => put(out, at, b" . all_off"),
        GroupReading::MemberCount => put(out, at, b" . member_count"),
    }
}

pub fn put_input_reading(out: &mut [u8], at: usize, property: InputReading) -> usize
    requires { Fits out.old at (further (Piece.sign POINT ∷ Piece.word (input_reading_word property) ∷ [])) }
    ensures { Put out.old at (further (Piece.sign POINT ∷ Piece.word (input_reading_word property) ∷ [])) out.new result }
{
    match property {
        InputReading::Occupied => put(out, at, b" . occupied"),
        InputReading::Light => put(out, at, b" . light"),
        InputReading::Position => put(out, at, b" . position"),
        InputReading::LastEventAge => put(out, at, b" . last_event_age"),
    }
}

pub fn put_time_reading(out: &mut [u8], at: usize, property: TimeReading) -> usize
    requires { Fits out.old at (further (Piece.sign POINT ∷ Piece.word (time_reading_word property) ∷ [])) }
    ensures { Put out.old at (further (Piece.sign POINT ∷ Piece.word (time_reading_word property) ∷ [])) out.new result }
{
    match property {
        TimeReading::Now => put(out, at, b" . now"),
        TimeReading::Hour => put(out, at, b" . hour"),
        TimeReading::Minute => put(out, at, b" . minute"),
        TimeReading::Weekday => put(out, at, b" . weekday"),
    }
}

pub fn put_sun_reading(out: &mut [u8], at: usize, property: SunReading) -> usize
    requires { Fits out.old at (further (Piece.sign POINT ∷ Piece.word (sun_reading_word property) ∷ [])) }
    ensures { Put out.old at (further (Piece.sign POINT ∷ Piece.word (sun_reading_word property) ∷ [])) out.new result }
{
    match property {
        SunReading::Rise => put(out, at, b" . rise"),
        SunReading::Set => put(out, at, b" . set"),
        SunReading::IsUp => put(out, at, b" . is_up"),
    }
}

pub fn put_event_reading(out: &mut [u8], at: usize, property: EventReading) -> usize
    requires { Fits out.old at (further (Piece.sign POINT ∷ Piece.word (event_reading_word property) ∷ [])) }
    ensures { Put out.old at (further (Piece.sign POINT ∷ Piece.word (event_reading_word property) ∷ [])) out.new result }
{
    match property {
        EventReading::Value => put(out, at, b" . value"),
        EventReading::Device => put(out, at, b" . device"),
        EventReading::Instance => put(out, at, b" . instance"),
        EventReading::Option => put(out, at, b" . option"),
    }
}
