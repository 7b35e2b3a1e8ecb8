// Numbers, times and durations as they are spelled.
ghost use Rattle.std.specs.Prelude.{◌≡◌, [], ◌∷◌, ◌++◌, ◌/◌, ◌%◌};
ghost use Rattle.text.specs.Literal.{ascii};
ghost use Rattle.writing.specs.Pieces.{Piece, digit, decimal, three_digits, further};
ghost use Rattle.spelling.specs.Put.{Put, Fits};

use crate::put::put;

// The last digit of a number.
fn digit(n: u64) -> u8
    ensures { result ≡ digit n }
{
    (n % 10) as u8 + b'0'
}

// The last ten digits of a number, without leading zeros.
pub fn put_decimal(out: &mut [u8], at: usize, n: u64) -> usize
    requires { Fits out.old at (decimal n) }
    ensures { Put out.old at (decimal n) out.new result }
{
    let mut digits = [0u8; 10];
    let mut rest = n;
    for i in 0..10 {
        let first = 9 - i;
        digits[first] = digit(rest);
        rest /= 10;
        if rest == 0 {
            return put(out, at, &digits[first..]);
        }
    }
    put(out, at, &digits)
}

pub fn put_number(out: &mut [u8], at: usize, n: u64) -> usize
    requires { Fits out.old at (further (Piece.integer n ∷ [])) }
    ensures { Put out.old at (further (Piece.integer n ∷ [])) out.new result }
{
    let i = put(out, at, b" ");
    put_decimal(out, i, n)
}

// Minutes since midnight, with two digits on each side.
pub fn put_time(out: &mut [u8], at: usize, m: u32) -> usize
    requires { Fits out.old at (further (Piece.time m ∷ [])) }
    ensures { Put out.old at (further (Piece.time m ∷ [])) out.new result }
{
    let hour = m as u64 / 60;
    let minute = m as u64 % 60;
    let spelled = [
        b' ',
        digit(hour / 10),
        digit(hour),
        b':',
        digit(minute / 10),
        digit(minute),
    ];
    put(out, at, &spelled)
}

// The longest duration that is written in milliseconds.
const MOST_MS: u32 = 1000000000;

// A longer one: in seconds with three places.
fn put_seconds(out: &mut [u8], at: usize, ms: u32) -> usize
    requires { Fits out.old at (decimal (ms / 1000) ++ 0x2E ∷ three_digits (ms % 1000) ++ ascii "s") }
    ensures { Put out.old at (decimal (ms / 1000) ++ 0x2E ∷ three_digits (ms % 1000) ++ ascii "s") out.new result }
{
    let rest = ms as u64 % 1000;
    let i = put_decimal(out, at, ms as u64 / 1000);
    let places = [b'.', digit(rest / 100), digit(rest / 10), digit(rest), b's'];
    put(out, i, &places)
}

pub fn put_duration(out: &mut [u8], at: usize, ms: u32) -> usize
    requires { Fits out.old at (further (Piece.duration ms ∷ [])) }
    ensures { Put out.old at (further (Piece.duration ms ∷ [])) out.new result }
{
    let i = put(out, at, b" ");
    if MOST_MS < ms {
        return put_seconds(out, i, ms);
    }
    let j = put_decimal(out, i, ms as u64);
    put(out, j, b"ms")
}
