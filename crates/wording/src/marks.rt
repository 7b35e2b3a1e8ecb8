// Sets of small numbers, as lent marks: mark k is set exactly if k is in the set. They are listed in order, each once.
use std::fmt;

// Puts a number into the set, or takes it out.
pub fn set(marks: &mut [bool], k: usize, is_in: bool) {
    if let Some(mark) = marks.get_mut(k) {
        *mark = is_in;
    }
}

pub fn has(marks: &[bool], k: usize) -> bool {
    matches!(marks.get(k), Some(true))
}

// How many numbers are in the set.
pub fn count(marks: &[bool]) -> usize {
    marks.iter().filter(|m| **m).count()
}

// The least number in the set.
pub fn first(marks: &[bool]) -> Option<usize> {
    marks.iter().position(|m| *m)
}

// What stands before the member with an index, of so many: a comma, but before the last the given words.
fn separator(n: usize, all: usize, last: &str) -> &str {
    if n == 0 {
        return "";
    }
    if n == all.saturating_sub(1) {
        last
    } else {
        ", "
    }
}

// Gives each number of the set with what stands before it.
pub fn each<F: FnMut(&str, usize)>(marks: &[bool], last: &str, mut give: F)
    requires { F.IsAlwaysCallable give }
{
    let all = count(marks);
    let members = marks.iter().enumerate().filter(|(_, m)| **m);
    for (n, (k, _)) in members.enumerate() {
        give(separator(n, all, last), k);
    }
}

// The numbers of a set, as in `1, 2 and 3`.
#[derive(Clone, Copy)]
pub struct Numbers<'a>(pub &'a [bool]);

impl fmt::Display for Numbers<'_> {
    fn fmt<W: fmt::Write>(&self, f: &mut fmt::Formatter<W>) -> fmt::Result {
        let all = count(self.0);
        let members = self.0.iter().enumerate().filter(|(_, m)| **m);
        for (n, (k, _)) in members.enumerate() {
            write!(f, "{}{k}", separator(n, all, " and "))?;
        }
        Ok(())
    }
}
