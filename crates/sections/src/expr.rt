// Values and readings, ported from expr.rs.
ghost use Rattle.std.specs.Prelude.{◌≡◌};
ghost use Rattle.tokens.specs.Cursor.{tokens, to_taken};
ghost use Rattle.tokens.specs.Record.{capacity};
ghost use Rattle.sheet.specs.View.{view_of};
ghost use Rattle.language.specs.Range.{range_of};
ghost use Rattle.language.specs.Expr.{lamp_property, group_property, input_property, time_property, sun_property, event_property, lamp_reading, group_reading, input_reading, time_reading, sun_reading, event_reading, var_reading, reading_by, reading_at, literal_at, delta_at, with_delta, read_value, value_at};

use crate::{name, words};
use model::{
    EventReading, GroupReading, InputReading, LampReading, Reading, SunReading, TimeReading, Value,
};
use references::{args, refs};
use sheet::{View, profile};
use tokens::cursor::{Cursor, Taken, Tokens};
use tokens::kind;

// The property with the n-th word of its list, here and below.
#[tactic(auto, unfolding(language::specs::Expr::lamp_property))]
fn lamp_property(n: u32) -> LampReading
    ensures { result ≡ lamp_property n }
{
    match n {
        0 => LampReading::Level,
        1 => LampReading::Cct,
        2 => LampReading::IsOn,
        _ => LampReading::LastLevel,
    }
}

#[tactic(auto, unfolding(language::specs::Expr::group_property))]
fn group_property(n: u32) -> GroupReading
    ensures { result ≡ group_property n }
{
    match n {
        0 => GroupReading::AnyOn,
        1 => GroupReading::AllOff,
        _ => GroupReading::MemberCount,
    }
}

#[tactic(auto, unfolding(language::specs::Expr::input_property))]
fn input_property(n: u32) -> InputReading
    ensures { result ≡ input_property n }
{
    match n {
        0 => InputReading::Occupied,
        1 => InputReading::Light,
        2 => InputReading::Position,
        _ => InputReading::LastEventAge,
    }
}

#[tactic(auto, unfolding(language::specs::Expr::time_property))]
fn time_property(n: u32) -> TimeReading
    ensures { result ≡ time_property n }
{
    match n {
        0 => TimeReading::Now,
        1 => TimeReading::Hour,
        2 => TimeReading::Minute,
        _ => TimeReading::Weekday,
    }
}

#[tactic(auto, unfolding(language::specs::Expr::sun_property))]
fn sun_property(n: u32) -> SunReading
    ensures { result ≡ sun_property n }
{
    match n {
        0 => SunReading::Rise,
        1 => SunReading::Set,
        _ => SunReading::IsUp,
    }
}

#[tactic(auto, unfolding(language::specs::Expr::event_property))]
fn event_property(n: u32) -> EventReading
    ensures { result ≡ event_property n }
{
    match n {
        0 => EventReading::Value,
        1 => EventReading::Device,
        2 => EventReading::Instance,
        _ => EventReading::Option,
    }
}

#[tactic(auto, unfolding(language::specs::Expr::lamp_reading, tokens::specs::Cursor::to_taken))]
fn lamp_reading(c: Cursor, t: &Tokens<'_>, view: &View<'_>) -> Taken<Reading>
    ensures { result ≡ to_taken (lamp_reading (tokens t.now.text.now t.now.words.now) (view_of view.now.settings view.now.sheet.now) c.index) }
{
    let (of, next) = refs::lamp_ref(c, t, view)?;
    let (n, behind) = next.expect_point_choice(t, b"level cct is_on last_level")?;
    Ok((Reading::Lamp(of, lamp_property(n)), behind))
}

#[tactic(auto, unfolding(language::specs::Expr::group_reading, tokens::specs::Cursor::to_taken))]
fn group_reading(c: Cursor, t: &Tokens<'_>, view: &View<'_>) -> Taken<Reading>
    ensures { result ≡ to_taken (group_reading (tokens t.now.text.now t.now.words.now) (view_of view.now.settings view.now.sheet.now) c.index) }
{
    let (of, next) = refs::group_ref(c, t, view)?;
    let (n, behind) = next.expect_point_choice(t, b"any_on all_off member_count")?;
    Ok((Reading::Group(of, group_property(n)), behind))
}

#[tactic(auto, unfolding(language::specs::Expr::input_reading, tokens::specs::Cursor::to_taken))]
fn input_reading(c: Cursor, t: &Tokens<'_>, view: &View<'_>) -> Taken<Reading>
    ensures { result ≡ to_taken (input_reading (tokens t.now.text.now t.now.words.now) (view_of view.now.settings view.now.sheet.now) (capacity t.now.words.now) c.index) }
{
    let (of, next) = args::input_ref(c, t, view)?;
    let (n, behind) = next.expect_point_choice(t, b"occupied light position last_event_age")?;
    Ok((Reading::Input(of, input_property(n)), behind))
}

#[tactic(auto, unfolding(language::specs::Expr::time_reading, tokens::specs::Cursor::to_taken))]
fn time_reading(c: Cursor, t: &Tokens<'_>) -> Taken<Reading>
    ensures { result ≡ to_taken (time_reading (tokens t.now.text.now t.now.words.now) c.index) }
{
    let (n, behind) = c.expect_point_choice(t, b"now hour minute weekday")?;
    Ok((Reading::Time(time_property(n)), behind))
}

#[tactic(auto, unfolding(language::specs::Expr::sun_reading, tokens::specs::Cursor::to_taken))]
fn sun_reading(c: Cursor, t: &Tokens<'_>) -> Taken<Reading>
    ensures { result ≡ to_taken (sun_reading (tokens t.now.text.now t.now.words.now) c.index) }
{
    let (n, behind) = c.expect_point_choice(t, b"rise set is_up")?;
    Ok((Reading::Sun(sun_property(n)), behind))
}

// A reading of `event`, whose word stands at an index, where it may stand; else 59.
#[tactic(auto, unfolding(language::specs::Expr::event_reading, sheet::specs::View::view_of, tokens::specs::Cursor::to_taken))]
fn event_reading(word: usize, c: Cursor, t: &Tokens<'_>, view: &View<'_>) -> Taken<Reading>
    ensures { result ≡ to_taken (event_reading (tokens t.now.text.now t.now.words.now) (view_of view.now.settings view.now.sheet.now) word c.index) }
{
    if !profile::any_form(view.settings.habit) {
        return Err(tokens::cursor::refuse(59, word));
    }
    let (n, behind) = c.expect_point_choice(t, b"value device instance option")?;
    Ok((Reading::Event(event_property(n)), behind))
}

#[tactic(auto, unfolding(language::specs::Expr::var_reading, tokens::specs::Cursor::to_taken))]
fn var_reading(c: Cursor, t: &Tokens<'_>) -> Taken<Reading>
    ensures { result ≡ to_taken (var_reading (tokens t.now.text.now t.now.words.now) (range_of t.now.words.now) c.index) }
{
    let (i, behind) = refs::quoted_name(c, t)?;
    Ok((Reading::Var(name::range(t.words, i)), behind))
}

// The reading with the n-th first word, which stands at an index.
#[tactic(auto, unfolding(language::specs::Expr::reading_by, tokens::specs::Cursor::to_taken))]
fn reading_by(
    n: u32,
    word: usize,
    behind: Cursor,
    t: &Tokens<'_>,
    view: &View<'_>,
) -> Taken<Reading>
    ensures { result ≡ to_taken (reading_by (tokens t.now.text.now t.now.words.now) (view_of view.now.settings view.now.sheet.now) (range_of t.now.words.now) (capacity t.now.words.now) word n behind.index) }
{
    // One match on the place of a word, as the definition has it: a table of functions would say no more.
    match n {
        0 => return lamp_reading(behind, t, view),
        1 => return group_reading(behind, t, view),
        2 => return input_reading(behind, t, view),
        3 => return time_reading(behind, t),
        4 => return sun_reading(behind, t),
        5 => return event_reading(word, behind, t, view),
        _ => return var_reading(behind, t),
    }
}

// A reading: any word, which must begin one; else 20.
#[tactic(auto, unfolding(language::specs::Expr::reading_at, tokens::specs::Cursor::to_taken))]
pub fn reading(c: Cursor, t: &Tokens<'_>, view: &View<'_>) -> Taken<Reading>
    ensures { result ≡ to_taken (reading_at (tokens t.now.text.now t.now.words.now) (view_of view.now.settings view.now.sheet.now) (range_of t.now.words.now) (capacity t.now.words.now) c.index) }
{
    let i = c.index;
    let (n, behind) = c.expect_choice(t, b"lamp group input time sun event var", 20)?;
    reading_by(n, i, behind, t, view)
}

// A number behind its sign, as a value.
#[tactic(auto, unfolding(language::specs::Expr::literal_at, tokens::specs::Cursor::to_taken))]
fn literal_at(c: Cursor, t: &Tokens<'_>, minus: bool) -> Taken<Value>
    ensures { result ≡ to_taken (literal_at (tokens t.now.text.now t.now.words.now) minus c.index) }
{
    let (n, behind) = c.expect(t, kind::INTEGER)?;
    Ok((Value::Literal(words::signed_by(minus, n)), behind))
}

// A number behind its sign, added to a reading.
#[tactic(auto, unfolding(language::specs::Expr::delta_at, tokens::specs::Cursor::to_taken))]
fn delta_at(c: Cursor, t: &Tokens<'_>, reading: Reading, minus: bool) -> Taken<Value>
    ensures { result ≡ to_taken (delta_at (tokens t.now.text.now t.now.words.now) reading minus c.index) }
{
    let (n, behind) = c.expect(t, kind::INTEGER)?;
    Ok((
        Value::Reads(reading, Some(words::signed_by(minus, n))),
        behind,
    ))
}

// A reading, perhaps with a number added.
#[tactic(auto, unfolding(language::specs::Expr::with_delta, tokens::specs::Cursor::to_taken, tokens::specs::Cursor::accepted))]
fn with_delta(c: Cursor, t: &Tokens<'_>, reading: Reading) -> Taken<Value>
    ensures { result ≡ to_taken (with_delta (tokens t.now.text.now t.now.words.now) reading c.index) }
{
    if let Some(behind) = c.accept(t, kind::PLUS) {
        return delta_at(behind, t, reading, false);
    }
    if let Some(behind) = c.accept(t, kind::MINUS) {
        return delta_at(behind, t, reading, true);
    }
    Ok((Value::Reads(reading, None), c))
}

#[tactic(auto, unfolding(language::specs::Expr::read_value, tokens::specs::Cursor::to_taken))]
fn read_value(c: Cursor, t: &Tokens<'_>, view: &View<'_>) -> Taken<Value>
    ensures { result ≡ to_taken (read_value (tokens t.now.text.now t.now.words.now) (view_of view.now.settings view.now.sheet.now) (range_of t.now.words.now) (capacity t.now.words.now) c.index) }
{
    let (reading, behind) = reading(c, t, view)?;
    with_delta(behind, t, reading)
}

// VALUE: an integer with perhaps one sign, or a reading with perhaps + or - an integer.
#[tactic(auto, unfolding(language::specs::Expr::value_at, tokens::specs::Cursor::to_taken, tokens::specs::Cursor::accepted))]
pub fn value_expr(c: Cursor, t: &Tokens<'_>, view: &View<'_>) -> Taken<Value>
    ensures { result ≡ to_taken (value_at (tokens t.now.text.now t.now.words.now) (view_of view.now.settings view.now.sheet.now) (range_of t.now.words.now) (capacity t.now.words.now) c.index) }
{
    if let Some(behind) = c.accept(t, kind::PLUS) {
        return literal_at(behind, t, false);
    }
    if let Some(behind) = c.accept(t, kind::MINUS) {
        return literal_at(behind, t, true);
    }
    if c.peek_is(t, kind::INTEGER) {
        return literal_at(c, t, false);
    }
    read_value(c, t, view)
}
