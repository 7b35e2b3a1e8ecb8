// Numbers from the words that hold them (flat/specs/Back.antt).
ghost use Rattle.std.specs.Prelude.{◌≡◌};
ghost use Rattle.flat.specs.Back.{offset_back, number_back, type_back};

// How many numbers a word has.
const WORD: u64 = 4294967296;

// The word says that no type is given.
const NO_TYPE: u32 = u32::MAX;

// From two's complement of 32 bits.
#[tactic(auto, using(crate::proofs::NumberLaws::signed_32), unfolding(flat::specs::Back::offset_back))]
pub fn offset_back(low: u32) -> i32
    ensures { result ≡ offset_back low }
{
    low.cast_signed()
}

// From two's complement of 64 bits, in two words.
#[tactic(auto, using(crate::proofs::NumberLaws::signed_64), unfolding(flat::specs::Back::number_back))]
pub fn number_back(low: u32, high: u32) -> i64
    ensures { result ≡ number_back low high }
{
    (low as u64 + WORD * high as u64).cast_signed()
}

#[tactic(auto, using(text::proofs::Tests::tests), unfolding(flat::specs::Back::type_back))]
pub fn type_back(n: u32) -> Option<u32>
    ensures { result ≡ type_back n }
{
    if n == NO_TYPE { None } else { Some(n) }
}
