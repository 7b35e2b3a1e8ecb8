// Sets of days.
ghost use Rattle.std.specs.Prelude.{◌≤◌, [], ◌∷◌};
ghost use Rattle.writing.specs.Pieces.{Piece, further};
ghost use Rattle.spelling.specs.Put.{Put, Fits, day_name, next_day};
ghost use Rattle.writing.specs.Write.{days_pieces, on_pieces};

use crate::put::put;
use model::Days;
use text::part;

const EVERY_DAY: u32 = 127;

// A day by its number, from Monday on.
fn put_day(out: &mut [u8], at: usize, d: u32) -> usize
    requires { (d ≤ 6) × Fits out.old at (further (Piece.word (day_name d) ∷ [])) }
    ensures { Put out.old at (further (Piece.word (day_name d) ∷ [])) out.new result }
{
    let start = d as usize * 4;
    put(
        out,
        at,
        part::part(b" mon tue wed thu fri sat sun", start, start + 4),
    )
}

// A day of a set: behind others with a comma before it.
fn put_next(out: &mut [u8], at: usize, some: bool, d: u32) -> usize
    requires { (d ≤ 6) × Fits out.old at (next_day some d) }
    ensures { Put out.old at (next_day some d) out.new result }
{
    if some {
        let i = put(out, at, b" ,");
        return put_day(out, i, d);
    }
    put_day(out, at, d)
}

// The days of a set from Monday on, one by one, a comma between.
pub fn put_days(out: &mut [u8], at: usize, days: Days) -> usize
    requires { Fits out.old at (further (days_pieces days)) }
    ensures { Put out.old at (further (days_pieces days)) out.new result }
{
    let mut end = at;
    let mut some = false;
    let mut left = days.sum;
    for d in 0..7 {
        let bit = left % 2;
        left /= 2;
        if bit == 1 {
            end = put_next(out, end, some, d);
            some = true;
        }
    }
    end
}

// Behind a time: only if there are fewer than seven.
pub fn put_on(out: &mut [u8], at: usize, days: Days) -> usize
    requires { Fits out.old at (further (on_pieces days)) }
    ensures { Put out.old at (further (on_pieces days)) out.new result }
{
    if days.sum == EVERY_DAY {
        return at;
    }
    let i = put(out, at, b" on");
    put_days(out, i, days)
}
