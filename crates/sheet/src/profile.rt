// The shop profile.
ghost use Rattle.std.specs.Prelude.{◌≡◌};
ghost use Rattle.sheet.specs.View.{any_form};

use crate::Habit;

// May a numbered reference, a broadcast and an `event` reading stand in a text?
#[tactic(auto, unfolding(crate::specs::View::any_form))]
pub fn any_form(habit: Habit) -> bool
    ensures { result ≡ any_form habit }
{
    match habit {
        Habit::Rule | Habit::Archive => true,
        Habit::Shop => false,
    }
}
