// Times of day and solar events, ported from timeval.rs.
ghost use Rattle.std.specs.Prelude.{◌≡◌};
ghost use Rattle.tokens.specs.Cursor.{tokens, to_taken};
ghost use Rattle.language.specs.Timeval.{most_offset, offset_bound, offset_at, with_offset, solar_event, solar_at, time_bound};

use crate::words;
use model::{SolarEvent, TimeBound};
use tokens::cursor::{Cursor, Taken, Tokens};
use tokens::kind;

// The longest offset behind a solar event and before it, in milliseconds: 32 signed bits.
const MOST_LATER: u32 = 2147483647;

const MOST_EARLIER: u32 = 2147483648;

// The longest offset on each side of 0 that 32 signed bits hold.
#[tactic(auto, unfolding(language::specs::Timeval::most_offset))]
fn most_offset(minus: bool) -> u32
    ensures { result ≡ most_offset minus }
{
    if minus { MOST_EARLIER } else { MOST_LATER }
}

// A solar event with an offset: signed in 64 bits, then narrowed. Too long a duration, at the token i, is refused with 36.
#[tactic(auto, unfolding(language::specs::Timeval::offset_bound, tokens::specs::Cursor::to_taken))]
fn offset_bound(
    event: SolarEvent,
    minus: bool,
    i: usize,
    ms: u32,
    behind: Cursor,
) -> Taken<TimeBound>
    ensures { result ≡ to_taken (offset_bound event minus i ms behind.index) }
{
    if most_offset(minus) < ms {
        return Err(tokens::cursor::refuse(36, i));
    }
    let offset = words::signed_by(minus, ms);
    Ok((TimeBound::Solar(event, offset as i32), behind))
}

// A solar event's duration behind its sign.
#[tactic(auto, unfolding(language::specs::Timeval::offset_at, tokens::specs::Cursor::to_taken))]
fn offset_at(c: Cursor, t: &Tokens<'_>, event: SolarEvent, minus: bool) -> Taken<TimeBound>
    ensures { result ≡ to_taken (offset_at (tokens t.now.text.now t.now.words.now) event minus c.index) }
{
    let i = c.index;
    let (ms, behind) = c.expect(t, kind::DURATION)?;
    offset_bound(event, minus, i, ms, behind)
}

// A solar event, perhaps with an offset.
#[tactic(auto, unfolding(language::specs::Timeval::with_offset, tokens::specs::Cursor::to_taken, tokens::specs::Cursor::accepted))]
fn with_offset(c: Cursor, t: &Tokens<'_>, event: SolarEvent) -> Taken<TimeBound>
    ensures { result ≡ to_taken (with_offset (tokens t.now.text.now t.now.words.now) event c.index) }
{
    if let Some(behind) = c.accept(t, kind::PLUS) {
        return offset_at(behind, t, event, false);
    }
    if let Some(behind) = c.accept(t, kind::MINUS) {
        return offset_at(behind, t, event, true);
    }
    Ok((TimeBound::Solar(event, 0), c))
}

// The event with the n-th word.
#[tactic(auto, unfolding(language::specs::Timeval::solar_event))]
fn solar_event(n: u32) -> SolarEvent
    ensures { result ≡ solar_event n }
{
    match n {
        0 => SolarEvent::Sunrise,
        _ => SolarEvent::Sunset,
    }
}

// SOLAR: sunrise or sunset, perhaps + or - a duration.
#[tactic(auto, unfolding(language::specs::Timeval::solar_at, tokens::specs::Cursor::to_taken))]
fn solar_with_offset(c: Cursor, t: &Tokens<'_>) -> Taken<TimeBound>
    ensures { result ≡ to_taken (solar_at (tokens t.now.text.now t.now.words.now) c.index) }
{
    let (n, behind) = c.expect_choice(t, b"sunrise sunset", 21)?;
    with_offset(behind, t, solar_event(n))
}

// A time bound: a TIME or a SOLAR.
#[tactic(auto, unfolding(language::specs::Timeval::time_bound, tokens::specs::Cursor::to_taken))]
pub fn time_bound(c: Cursor, t: &Tokens<'_>) -> Taken<TimeBound>
    ensures { result ≡ to_taken (time_bound (tokens t.now.text.now t.now.words.now) c.index) }
{
    if c.peek_is(t, kind::TIME) {
        let (m, behind) = c.expect(t, kind::TIME)?;
        return Ok((TimeBound::Clock(m), behind));
    }
    solar_with_offset(c, t)
}
