// Parts of byte slices, shown and compared where they stand: nothing is copied.
ghost use Rattle.std.specs.Prelude.{◌≡◌, ◌+◌, ◌≤◌, length};
ghost use Rattle.text.specs.Part.{part_of, same_bytes, SaysSame};

// The bytes from an offset up to another. Any two offsets will do: what lies past the end is left out.
pub fn part(s: &[u8], start: usize, end: usize) -> &[u8]
    ensures { result.now ≡ part_of s.now start end }
{
    let end = end.min(s.len());
    if start < end { &s[start..end] } else { &[] }
}

// The same bytes, asked of one after the other? For a fixed word: the compiler puts this in the place of a call and makes a few tests of
// it, where `a == b` stays a call.
pub fn each_same(a: &[u8], b: &[u8]) -> bool
    ensures { result ≡ same_bytes a.now b.now }
{
    a.len() == b.len() && a.iter().zip(b).all(|(x, y)| x == y)
}

// Are four bytes of two slices the same, from an offset on? No test waits for another, so that the machine makes all at once.
fn four_same(a: &[u8], b: &[u8], at: usize) -> bool
    requires { (at + 4 ≤ length a.now) × (at + 4 ≤ length b.now) }
    ensures { result ≡ same_bytes (part_of a.now at (at + 4)) (part_of b.now at (at + 4)) }
{
    !((a[at] != b[at])
        | (a[at + 1] != b[at + 1])
        | (a[at + 2] != b[at + 2])
        | (a[at + 3] != b[at + 3]))
}

// The same bytes, asked of four at a time? The last four begin at an offset, and some of them may have been tested before.
fn blocks_same(a: &[u8], b: &[u8], last: usize) -> bool
    requires { (length a.now ≡ last + 4) × (length b.now ≡ last + 4) }
    ensures { result ≡ same_bytes a.now b.now }
{
    for at in (0..last).step_by(4) {
        if !four_same(a, b, at) {
            return false;
        }
    }
    four_same(a, b, last)
}

// Yes exactly for two slices of the same length and bytes, whatever they are: all names and topics are compared by this function.
// Fewer than eight bytes are gone through one by one. `==` of two slices stays a call, which costs more.
pub fn same(a: &[u8], b: &[u8]) -> bool
    ensures value { result ≡ same_bytes a.now b.now }
    ensures exactly { SaysSame a.now b.now result }
{
    let len = a.len();
    if b.len() != len {
        return false;
    }
    if len < 8 {
        return each_same(a, b);
    }
    blocks_same(a, b, len - 4)
}
