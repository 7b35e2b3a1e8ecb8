// Words that differ in the case of letters, or in one letter: what a slip of the pen makes.
// The most bytes of a word that is compared.
const MOST: usize = 48;

// Are two bytes the same but for case? One that a word lacks counts as 0.
fn is_same(a: Option<&u8>, b: Option<&u8>) -> bool {
    a.unwrap_or(&0).eq_ignore_ascii_case(b.unwrap_or(&0))
}

// How many bytes the two have in common from the front.
fn common_front(a: &[u8], b: &[u8]) -> usize {
    (0..a.len())
        .take_while(|i| is_same(a.get(*i), b.get(*i)))
        .count()
}

// The same from the back.
fn common_back(a: &[u8], b: &[u8]) -> usize {
    (0..a.len())
        .take_while(|i| is_same(a.iter().rev().nth(*i), b.iter().rev().nth(*i)))
        .count()
}

// Are the two the same but for one byte, which one of them may lack, and for case? A single byte is near to none.
pub fn is_near(a: &[u8], b: &[u8]) -> bool {
    if a.len() < 2 || MOST < a.len() || MOST < b.len() {
        return false;
    }
    let front = common_front(a, b);
    let back = common_back(a, b);
    if a.len() == b.len() {
        return a.len() <= front.saturating_add(back).saturating_add(1);
    }
    let shorter = a.len().min(b.len());
    a.len().abs_diff(b.len()) == 1 && shorter <= front.saturating_add(back)
}

// Is a word of two bytes or more the front of another, not counting case?
pub fn is_front(a: &[u8], b: &[u8]) -> bool {
    2 <= a.len() && common_front(a, b) == a.len()
}
