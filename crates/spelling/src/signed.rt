// Signed numbers: literals, what is added to a reading, and offsets from a solar event.
ghost use Rattle.writing.specs.Pieces.{further};
ghost use Rattle.spelling.specs.Put.{Put, Fits};
ghost use Rattle.writing.specs.Write.{literal_pieces, delta_pieces, offset_pieces};

use crate::numbers::{put_duration, put_number};
use crate::put::put;

// A literal has a sign if it is negative.
pub fn put_literal(out: &mut [u8], at: usize, z: i64) -> usize
    requires { Fits out.old at (further (literal_pieces z)) }
    ensures { Put out.old at (further (literal_pieces z)) out.new result }
{
    let n = z.unsigned_abs();
    if z < 0 {
        let i = put(out, at, b" -");
        return put_number(out, i, n);
    }
    put_number(out, at, n)
}

// What is added has a sign, also if it is 0.
fn put_added(out: &mut [u8], at: usize, z: i64) -> usize
    requires { Fits out.old at (further (delta_pieces (Some z))) }
    ensures { Put out.old at (further (delta_pieces (Some z))) out.new result }
{
    let more = z.unsigned_abs();
    if z < 0 {
        let i = put(out, at, b" -");
        return put_number(out, i, more);
    }
    let i = put(out, at, b" +");
    put_number(out, i, more)
}

pub fn put_delta(out: &mut [u8], at: usize, delta: Option<i64>) -> usize
    requires { Fits out.old at (further (delta_pieces delta)) }
    ensures { Put out.old at (further (delta_pieces delta)) out.new result }
{
    match delta {
        None => at,
        Some(z) => put_added(out, at, z),
    }
}

// An offset of 0 is left out.
pub fn put_offset(out: &mut [u8], at: usize, offset: i32) -> usize
    requires { Fits out.old at (further (offset_pieces offset)) }
    ensures { Put out.old at (further (offset_pieces offset)) out.new result }
{
    let ms = offset.unsigned_abs();
    if ms == 0 {
        return at;
    }
    if offset < 0 {
        let i = put(out, at, b" -");
        return put_duration(out, i, ms);
    }
    let i = put(out, at, b" +");
    put_duration(out, i, ms)
}
