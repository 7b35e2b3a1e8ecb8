// Where a byte stands.
ghost use Rattle.std.specs.Prelude.{◌≡◌, ◌≤◌, length};
ghost use Rattle.text.specs.Find.{first_at};

// The offset of the first b at or behind an offset, looked for byte by byte; the length where there is none.
fn find_each(s: &[u8], from: usize, b: u8) -> usize
    requires { from ≤ length s.now }
    ensures { result ≡ first_at b s.now from }
{
    match s[from..].iter().position(|x| *x == b) {
        Some(i) => from + i,
        None => s.len(),
    }
}

// The offset of the first b at or behind an offset; the length where there is none. For speed it takes eight bytes a turn: lines and
// fields are found by this function.
pub fn find(s: &[u8], from: usize, b: u8) -> usize
    ensures { result ≡ first_at b s.now from }
{
    let len = s.len();
    if len <= from {
        return len;
    }
    let mut i = from;
    while 8 <= len - i {
        if s[i] == b {
            return i;
        }
        if s[i + 1] == b {
            return i + 1;
        }
        if s[i + 2] == b {
            return i + 2;
        }
        if s[i + 3] == b {
            return i + 3;
        }
        if s[i + 4] == b {
            return i + 4;
        }
        if s[i + 5] == b {
            return i + 5;
        }
        if s[i + 6] == b {
            return i + 6;
        }
        if s[i + 7] == b {
            return i + 7;
        }
        i += 8;
    }
    find_each(s, i, b)
}
