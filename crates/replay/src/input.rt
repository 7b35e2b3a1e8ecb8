// The cases and calls on standard input. Each function answers nothing where the input has something else, ends, or fails.
use sheet::Habit;
use std::io::Read;

// The most digits of a number.
const DIGITS: usize = 18;

// The next byte.
fn byte(input: &mut impl Read) -> Option<u8> {
    let mut one = [0u8; 1];
    input.read_exact(&mut one).ok()?;
    Some(one[0])
}

// The number of a decimal numeral, which ends with a byte that is no digit.
fn decimal(input: &mut impl Read, stop: u8) -> Option<u64> {
    let mut n: u64 = 0;
    for count in 0..=DIGITS {
        let b = byte(input)?;
        if 0 < count && b == stop {
            return Some(n);
        }
        if !b.is_ascii_digit() {
            return None;
        }
        n = n.saturating_mul(10).saturating_add(u64::from(b - b'0'));
    }
    None
}

// A decimal number of a type up to the byte that ends it.
pub fn number<N: TryFrom<u64, Error: Drop>>(input: &mut impl Read, stop: u8) -> Option<N> {
    N::try_from(decimal(input, stop)?).ok()
}

// A line of as many numbers as a slice has room for, one space between any two.
pub fn line<N: TryFrom<u64, Error: Drop> + Copy>(
    input: &mut impl Read,
    numbers: &mut [N],
) -> Option<()> {
    let Some((last, others)) = numbers.split_last_mut() else {
        return follows(input, b"\n");
    };
    for n in others {
        *n = number(input, b' ')?;
    }
    *last = number(input, b'\n')?;
    Some(())
}

// The bytes that are expected. It is read up to the first that differs.
pub fn follows(input: &mut impl Read, expected: &[u8]) -> Option<()> {
    for b in expected {
        if byte(input)? != *b {
            return None;
        }
    }
    Some(())
}

// The habit of a call, and the space behind it.
pub fn habit(input: &mut impl Read) -> Option<Habit> {
    let (habit, rest) = match byte(input)? {
        b'r' => (Habit::Rule, b"ule ".as_slice()),
        b'a' => (Habit::Archive, b"rchive ".as_slice()),
        b's' => (Habit::Shop, b"hop ".as_slice()),
        _ => return None,
    };
    follows(input, rest)?;
    Some(habit)
}

// So many bytes, which are read into the start of a buffer, and a line end behind them.
pub fn block<'a>(input: &mut impl Read, buffer: &'a mut [u8], size: usize) -> Option<&'a [u8]> {
    let filled = buffer.get_mut(..size.checked_add(1)?)?;
    input.read_exact(filled).ok()?;
    filled.strip_suffix(b"\n")
}
