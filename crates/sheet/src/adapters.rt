// A set of adapters, one bit for each.
ghost use Rattle.std.specs.Prelude.{◌≡◌};
ghost use Rattle.sheet.specs.Adapters.{has, put, packed};

use model::limits;

#[derive(Clone, Copy)]
pub struct Adapters {
    pub words: [u32; 8],
}

// All adapters, or none.
pub fn all_if(all: bool) -> Adapters
    ensures { result ≡ packed (λ _. all) }
{
    if all {
        return Adapters {
            words: [u32::MAX; 8],
        };
    }
    Adapters { words: [0; 8] }
}

// Is the adapter in the set?
pub fn has(set: Adapters, a: u32) -> bool
    ensures { result ≡ has set a }
{
    if limits::MAX_ADAPTER < a {
        return false;
    }
    set.words[(a / 32) as usize] >> (a % 32) & 1 == 1
}

// The set, but that an adapter is in it or not, as is said.
pub fn put(set: Adapters, a: u32, inside: bool) -> Adapters
    ensures { result ≡ put set a inside }
{
    if limits::MAX_ADAPTER < a {
        return set;
    }
    let at = (a / 32) as usize;
    let bit: u32 = 1 << (a % 32);
    let mut other = set;
    if inside {
        other.words[at] |= bit;
    } else {
        // set before it is turned, so that it is 0 whatever it was
        other.words[at] = (other.words[at] | bit) ^ bit;
    }
    other
}
