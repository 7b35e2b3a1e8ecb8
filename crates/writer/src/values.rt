// What is compared with.
ghost use Rattle.writing.specs.Write.{reading_pieces, value_pieces, operand_pieces};
ghost use Rattle.writing.specs.Pieces.{further};
ghost use Rattle.spelling.specs.Put.{Put, Fits, no_bytes};
ghost use Rattle.topics.specs.Ranges.{name_in};

use crate::choices::{
    put_event_reading, put_group_reading, put_input_reading, put_lamp_reading, put_sun_reading,
    put_time_reading,
};
use model::{
    Event, EventReading, GroupReading, InputReading, InputRef, LampReading, Name, Operand, Reading,
    Ref, Sun, SunReading, TimeReading, Value,
};
use spelling::parts::{put_input, put_name, put_reference};
use spelling::put::{put, put_string};
use spelling::signed::{put_delta, put_literal};

fn lamp_reading(out: &mut [u8], at: usize, primary: u32, r: Ref, property: LampReading) -> usize
    requires { Fits out.old at (further (reading_pieces primary no_bytes (Reading.Lamp r property))) }
    ensures { Put out.old at (further (reading_pieces primary no_bytes (Reading.Lamp r property))) out.new result }
{
    let i = put_reference(out, at, b" lamp", primary, r);
    put_lamp_reading(out, i, property)
}

fn group_reading(out: &mut [u8], at: usize, primary: u32, r: Ref, property: GroupReading) -> usize
    requires { Fits out.old at (further (reading_pieces primary no_bytes (Reading.Group r property))) }
    ensures { Put out.old at (further (reading_pieces primary no_bytes (Reading.Group r property))) out.new result }
{
    let i = put_reference(out, at, b" group", primary, r);
    put_group_reading(out, i, property)
}

fn input_reading(
    out: &mut [u8],
    at: usize,
    primary: u32,
    r: InputRef,
    property: InputReading,
) -> usize
    requires { Fits out.old at (further (reading_pieces primary no_bytes (Reading.Input r property))) }
    ensures { Put out.old at (further (reading_pieces primary no_bytes (Reading.Input r property))) out.new result }
{
    let i = put_input(out, at, primary, r);
    put_input_reading(out, i, property)
}

fn time_reading(out: &mut [u8], at: usize, property: TimeReading) -> usize
    requires { Fits out.old at (further (reading_pieces 0 no_bytes (Reading.Time property))) }
    ensures { Put out.old at (further (reading_pieces 0 no_bytes (Reading.Time property))) out.new result }
{
    let i = put(out, at, b" time");
    put_time_reading(out, i, property)
}

fn sun_reading(out: &mut [u8], at: usize, property: SunReading) -> usize
    requires { Fits out.old at (further (reading_pieces 0 no_bytes (Reading.Sun property))) }
    ensures { Put out.old at (further (reading_pieces 0 no_bytes (Reading.Sun property))) out.new result }
{
    let i = put(out, at, b" sun");
    put_sun_reading(out, i, property)
}

fn event_reading(out: &mut [u8], at: usize, property: EventReading) -> usize
    requires { Fits out.old at (further (reading_pieces 0 no_bytes (Reading.Event property))) }
    ensures { Put out.old at (further (reading_pieces 0 no_bytes (Reading.Event property))) out.new result }
{
    let i = put(out, at, b" event");
    put_event_reading(out, i, property)
}

fn var_reading(out: &mut [u8], at: usize, text: &[u8], name: Name) -> usize
    requires { Fits out.old at (further (reading_pieces 0 (name_in text.now) (Reading.Var name))) }
    ensures { Put out.old at (further (reading_pieces 0 (name_in text.now) (Reading.Var name))) out.new result }
{
    let i = put(out, at, b" var");
    put_name(out, i, text, name)
}

fn reads(
    out: &mut [u8],
    at: usize,
    primary: u32,
    text: &[u8],
    reading: Reading,
    delta: Option<i64>,
) -> usize
    requires { Fits out.old at (further (value_pieces primary (name_in text.now) (Value.Reads reading delta))) }
    ensures { Put out.old at (further (value_pieces primary (name_in text.now) (Value.Reads reading delta))) out.new result }
{
    let i = put_reading(out, at, primary, text, reading);
    put_delta(out, i, delta)
}

fn put_reading(out: &mut [u8], at: usize, primary: u32, text: &[u8], reading: Reading) -> usize
    requires { Fits out.old at (further (reading_pieces primary (name_in text.now) reading)) }
    ensures { Put out.old at (further (reading_pieces primary (name_in text.now) reading)) out.new result }
{
    match reading {
        Reading::Lamp(r, property) => lamp_reading(out, at, primary, r, property),
        Reading::Group(r, property) => group_reading(out, at, primary, r, property),
        Reading::Input(r, property) => input_reading(out, at, primary, r, property),
        Reading::Time(property) => time_reading(out, at, property),
        Reading::Sun(property) => sun_reading(out, at, property),
        Reading::Event(property) => event_reading(out, at, property),
        Reading::Var(name) => var_reading(out, at, text, name),
    }
}

pub fn put_value(out: &mut [u8], at: usize, primary: u32, text: &[u8], value: Value) -> usize
    requires { Fits out.old at (further (value_pieces primary (name_in text.now) value)) }
    ensures { Put out.old at (further (value_pieces primary (name_in text.now) value)) out.new result }
{
    match value {
        Value::Literal(z) => put_literal(out, at, z),
        Value::Reads(reading, delta) => reads(out, at, primary, text, reading, delta),
    }
}

pub fn put_operand(out: &mut [u8], at: usize, primary: u32, text: &[u8], operand: Operand) -> usize
    requires { Fits out.old at (further (operand_pieces primary (name_in text.now) operand)) }
    ensures { Put out.old at (further (operand_pieces primary (name_in text.now) operand)) out.new result }
{
    match operand {
        Operand::Text(name) => put_string(out, at, text, name),
        Operand::Number(value) => put_value(out, at, primary, text, value),
    }
}
