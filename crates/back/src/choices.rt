// The choices, each from the number that stands for it (flat/specs/Codes.antt); the last one for every other number, as flat/specs/Back.antt has it.
ghost use Rattle.std.specs.Prelude.{◌≡◌, eqb};
ghost use Rattle.text.specs.Choice.{pick};
ghost use Rattle.flat.specs.Back.{comparison_back};

use model::Comparison;

// One of two: the first one's number is 1.
#[tactic(auto, using(text::proofs::Tests::tests))]
pub(crate) fn either<T: Copy>(n: u32, first: T, second: T) -> T
    ensures { result ≡ pick (eqb n 1) first second }
{
    if n == 1 { first } else { second }
}

#[tactic(auto, unfolding(flat::specs::Back::coded, flat::specs::Back::comparison_back))]
pub fn comparison_back(n: u32) -> Comparison
    ensures { result ≡ comparison_back n }
{
    match n {
        1 => Comparison::Eq,
        2 => Comparison::Ne,
        3 => Comparison::Ge,
        4 => Comparison::Le,
        5 => Comparison::Gt,
        _ => Comparison::Lt,
    }
}
