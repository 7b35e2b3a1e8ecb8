// The exact amount of a duration, in whole milliseconds.
ghost use Rattle.std.specs.Prelude.{◌≡◌, ◌+◌, ◌*◌, ◌^◌, ◌<◌};
ghost use Rattle.tokens.specs.Amount.{JudgedAmount};
ghost use Rattle.tokens.specs.Duration.{unit_of, bounded_ms, whole_ms, amount};

// The unit's milliseconds: ms, s, m or h; 0 of any other letters.
#[tactic(auto, using(text::proofs::Tests::steps), unfolding(crate::specs::Duration::unit_of))]
pub fn unit_ms(letters: &[u8]) -> u32
    ensures { result ≡ unit_of letters.now }
{
    if text::part::same(letters, b"ms") {
        return 1;
    }
    if text::part::same(letters, b"s") {
        return 1000;
    }
    if text::part::same(letters, b"m") {
        return 60000;
    }
    if text::part::same(letters, b"h") {
        return 3600000;
    }
    0
}

// The greatest power of ten that 64 bits hold is 10^19.
const MOST_POWER: usize = 19;

// 10^d, where 64 bits hold it.
pub(crate) fn power_of_ten(d: usize) -> u64
    requires { 10 ^ d < 2 ^ 64 }
    ensures { result ≡ 10 ^ d }
{
    10u64.pow(d as u32)
}

// The sum of two amounts of milliseconds; more than 32 bits hold is refused with 17.
fn sum_ms(a: u64, b: u64) -> Result<u32, u32>
    ensures { result ≡ bounded_ms (a + b) }
{
    match u32::try_from(a.saturating_add(b)) {
        Ok(ms) => Ok(ms),
        Err(_) => Err(17),
    }
}

// So many milliseconds, and n parts of which scale make one.
fn with_parts(ms: u64, n: u64, scale: u64) -> Result<u32, u32>
    requires { 0 < scale }
    ensures { result ≡ whole_ms (ms * scale + n) scale }
{
    if n % scale == 0 {
        return sum_ms(ms, n / scale);
    }
    Err(18)
}

// The milliseconds of whole.frac of a unit, with d digits behind the point: exact, or refused with 18 or 17. A fraction times its unit is below 2^64, so that
// with more digits than that it is 0 or no whole number of milliseconds.
pub fn duration_ms(whole: u32, frac: u32, d: usize, unit: u32) -> Result<u32, u32>
    ensures value { result ≡ amount whole frac d unit }
    ensures exact { JudgedAmount whole frac d unit result }
{
    let ms = u64::from(whole) * u64::from(unit);
    let n = u64::from(frac) * u64::from(unit);
    if n == 0 {
        return sum_ms(ms, 0);
    }
    if MOST_POWER < d {
        return Err(18);
    }
    with_parts(ms, n, power_of_ten(d))
}
