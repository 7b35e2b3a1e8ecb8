// Day sets, ported from timeval.rs's day_set; what the days and the ranges are is document 02's.
#![tactic(auto)]

ghost use Rattle.std.specs.Prelude.{◌≡◌, ◌≤◌};
ghost use Rattle.tokens.specs.Cursor.{tokens, to_taken};
ghost use Rattle.tokens.specs.Record.{capacity};
ghost use Rattle.days.specs.Days.{has_day, every_day};
ghost use Rattle.days.specs.Read.{day_at, last_day, covers, gets_day, with_range, range_at, day_set, no_day, on_days};

use model::Days;
use tokens::cursor::{Cursor, Taken, Tokens};
use tokens::kind;

// The last day's number.
const LAST_DAY: u32 = 6;

// All seven days.
pub fn every_day() -> Days
    ensures { result ≡ every_day }
{
    Days { sum: 127 }
}

fn no_day() -> Days
    ensures { result ≡ no_day }
{
    Days { sum: 0 }
}

// Is a day in the set?
fn has_day(days: Days, d: u32) -> bool
    requires { d ≤ 6 }
    ensures { result ≡ has_day days d }
{
    days.sum >> d & 1 == 1
}

// Is a day in the range from one day to another?
fn covers(from: u32, to: u32, d: u32) -> bool
    ensures { result ≡ covers from to d }
{
    if from <= to {
        if from <= d {
            return d <= to;
        }
        return false;
    }
    if to < d {
        return from <= d;
    }
    true
}

// Is a day in the set once it gets a range?
fn gets(days: Days, from: u32, to: u32, d: u32) -> bool
    requires { d ≤ 6 }
    ensures { result ≡ gets_day days from to d }
{
    if covers(from, to, d) {
        return true;
    }
    has_day(days, d)
}

// The set, and the days of a range with it: the last day's bit first, and each one's before that of the day behind it.
fn with_range(days: Days, from: u32, to: u32) -> Days
    ensures { result ≡ with_range days from to }
{
    let mut sum: u32 = 0;
    let mut left: u32 = LAST_DAY + 1;
    // It counts down, as the bits are summed; a `for` would count up and take each number off again.
    while 0 < left {
        left -= 1;
        sum = sum * 2;
        if gets(days, from, to, left) {
            sum += 1;
        }
    }
    Days { sum }
}

// A day, by its word: no word is refused with 20, another with 50.
#[tactic(auto, unfolding(crate::specs::Read::day_at, tokens::specs::Cursor::to_taken))]
fn day_at(c: Cursor, t: &Tokens<'_>) -> Taken<u32>
    ensures { result ≡ to_taken (day_at (tokens t.now.text.now t.now.words.now) c.index) }
{
    c.expect_choice(t, b"mon tue wed thu fri sat sun", 50)
}

// The last day of a range: behind `..`, or the first.
#[tactic(auto, unfolding(crate::specs::Read::last_day, tokens::specs::Cursor::to_taken, tokens::specs::Cursor::accepted))]
fn last_day(from: u32, c: Cursor, t: &Tokens<'_>) -> Taken<u32>
    ensures { result ≡ to_taken (last_day (tokens t.now.text.now t.now.words.now) from c.index) }
{
    let Some(next) = c.accept(t, kind::POINTS) else {
        return Ok((from, c));
    };
    day_at(next, t)
}

// A day or a range, put to the days before it.
#[tactic(auto, unfolding(crate::specs::Read::range_at, tokens::specs::Cursor::to_taken))]
fn range_at(days: Days, c: Cursor, t: &Tokens<'_>) -> Taken<Days>
    ensures { result ≡ to_taken (range_at (tokens t.now.text.now t.now.words.now) days c.index) }
{
    let (from, next) = day_at(c, t)?;
    let (to, behind) = last_day(from, next, t)?;
    Ok((with_range(days, from, to), behind))
}

// A day set: days or ranges parted by commas.
#[tactic(auto, unfolding(crate::specs::Read::day_set, tokens::specs::Cursor::to_taken, tokens::specs::Cursor::accepted))]
pub fn day_set(c: Cursor, t: &Tokens<'_>) -> Taken<Days>
    ensures { result ≡ to_taken (day_set (tokens t.now.text.now t.now.words.now) (capacity t.now.words.now) c.index) }
{
    let mut days = no_day();
    let mut p = c;
    for _ in 0..tokens::record::count(t.words) {
        let (more, behind) = range_at(days, p, t)?;
        let Some(next) = behind.accept(t, kind::COMMA) else {
            return Ok((more, behind));
        };
        days = more;
        p = next;
    }
    Err(tokens::cursor::refuse(20, p.index))
}

// The days on which a time counts: those behind `on`, or all seven.
#[tactic(auto, unfolding(crate::specs::Read::on_days, tokens::specs::Cursor::to_taken, tokens::specs::Cursor::accepted))]
pub fn on_days(c: Cursor, t: &Tokens<'_>) -> Taken<Days>
    ensures { result ≡ to_taken (on_days (tokens t.now.text.now t.now.words.now) (capacity t.now.words.now) c.index) }
{
    let Some(next) = c.accept_kw(t, b"on") else {
        return Ok((every_day(), c));
    };
    day_set(next, t)
}
