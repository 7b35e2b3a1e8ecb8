// A name or other string in a value.
ghost use Rattle.std.specs.Prelude.{◌≡◌};
ghost use Rattle.language.specs.Range.{range_of};

use model::Name;

// The range of the token i.
#[tactic(auto, unfolding(language::specs::Range::range_of))]
pub fn range(words: &[u32], i: usize) -> Name
    ensures { result ≡ range_of words.now i }
{
    Name {
        start: tokens::record::start(words, i),
        length: tokens::record::length(words, i),
    }
}
