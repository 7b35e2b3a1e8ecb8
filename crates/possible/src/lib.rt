// Which entries can be written (document 02, §7): those that a text could give, and that a call can name.
#![tactic(auto)]

pub mod entries;
mod possible;
mod reached;

ghost use Rattle.std.specs.Prelude.{◌≡◌, Bool, ◌+◌, ◌<◌, ◌^◌, length};
ghost use Rattle.std.specs.Fn.{FnReturnsAt};
ghost use Rattle.writing.specs.Writing.{failing};

// The ordinal of the first of these entries that fails the test, where `from` is that of the first of them; 0 where all pass.
pub fn failing<T, F: Fn(&T) -> bool>(rows: &[T], from: u32, test: F) -> u32
    requires callable { F.IsAlwaysCallable test }
    requires fits { from + length rows.now < 2 ^ 32 }
    ensures { (passes : T → Bool) → ((x : T) (r : Bool) → FnReturnsAt F.Fn test x r → r ≡ passes x) → result ≡ failing passes from rows.now }
{
    for (i, x) in rows.iter().enumerate() {
        if !test(x) {
            return from + i as u32;
        }
    }
    0
}
