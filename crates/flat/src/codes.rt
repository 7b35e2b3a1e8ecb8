// The numbers that stand for numbers and types in the flat layout (specs/Codes.antt); a choice's number is its own.
ghost use Rattle.std.specs.Prelude.{◌≡◌};
ghost use Rattle.flat.specs.Codes.{twos_complement, low_word, high_word, type_or_none};

// The code of a reading of a var.
pub const VAR: u32 = 23;

// Where no type of instance is given.
const NO_TYPE: u32 = u32::MAX;

// How many numbers a word has.
const WORD: u64 = 4294967296;

// A number of 64 signed bits as it lies in them, in two's complement.
#[tactic(auto, using(crate::proofs::SignedLaws::bits_complement))]
fn twos_complement(z: i64) -> u64
    ensures { result ≡ twos_complement z }
{
    z.cast_unsigned()
}

pub fn low_word(z: i64) -> u32
    ensures { result ≡ low_word z }
{
    (twos_complement(z) % WORD) as u32
}

pub fn high_word(z: i64) -> u32
    ensures { result ≡ high_word z }
{
    (twos_complement(z) / WORD) as u32
}

// A solar event's offset.
pub fn offset(z: i32) -> u32
    ensures { result ≡ low_word z }
{
    low_word(z as i64)
}

pub fn type_or_none(x: Option<u32>) -> u32
    ensures { result ≡ type_or_none x }
{
    x.unwrap_or(NO_TYPE)
}
