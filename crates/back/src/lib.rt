// An entry read back from its row of words (flat/specs/Back.antt), and whether words are an entry's row (specs/Rows.antt).
#![tactic(auto)]

pub mod choices;
pub mod conditions;
pub mod numbers;
pub mod parts;
pub mod triggers;

ghost use Rattle.std.specs.Prelude.{◌≡◌};
ghost use Rattle.back.specs.Rows.{is_trigger_row, is_condition_row};

use flat::rows::Row;

// Are these the words of a trigger?
#[tactic(auto, using(flat::proofs::RowLaws::same_rows), unfolding(crate::specs::Rows::is_trigger_row))]
pub fn is_trigger(row: Row) -> bool
    ensures { result ≡ is_trigger_row row }
{
    flat::triggers::trigger_row(triggers::trigger_back(row)) == row
}

// Are these the words of a condition?
#[tactic(auto, using(flat::proofs::RowLaws::same_rows), unfolding(crate::specs::Rows::is_condition_row))]
pub fn is_condition(row: Row) -> bool
    ensures { result ≡ is_condition_row row }
{
    flat::conditions::condition_row(conditions::condition_back(row)) == row
}
