// Rows of bytes that all pass a test, taken eight at a time, for speed.
ghost use Rattle.std.specs.Prelude.{◌≡◌, ◌+◌, ◌≤◌, ℕ, Bool, true, length};
ghost use Rattle.text.specs.Block.{Tells, block, Row};

// Are there eight bytes at an offset that all pass a test? No test waits for another, so that the machine makes all at once. Whether one
// fails is held, which costs it less than whether all pass.
fn eight<F: Fn(u8) -> bool>(s: &[u8], at: usize, test: &F) -> bool
    requires { F.IsAlwaysCallable test.now }
    ensures tells { (p : ℕ → Bool) → Tells (F.post test.now) p → result ≡ block p s.now at }
    ensures inside { result ≡ true → at + 8 ≤ length s.now }
{
    let len = s.len();
    if len < 8 || len - 8 < at {
        return false;
    }
    let mut fails = false;
    for b in &s[at..at + 8] {
        fails |= !test(*b);
    }
    !fails
}

// Behind blocks of eight bytes that all pass a test and stand in a row from an offset on.
pub fn row<F: Fn(u8) -> bool>(s: &[u8], from: usize, test: F) -> usize
    requires { F.IsAlwaysCallable test }
    ensures { (p : ℕ → Bool) → Tells (F.post test) p → Row p s.now from result }
{
    let mut at = from;
    while eight(s, at, &test) {
        at += 8;
    }
    at
}
