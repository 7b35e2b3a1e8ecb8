// The entries of two rules, compared as joining compares them: by record, names by bytes. The names of a list stand in the text before it.
use model::{Conditions, Trigger, Triggers};

// The most entries of a list.
const MOST: usize = 4;

// Is a trigger the same as one of the first so many of a list?
fn is_among(a: &[u8], x: Trigger, b: &[u8], list: Triggers, count: usize) -> bool {
    list.rows
        .iter()
        .take(count)
        .any(|row| compare::same_trigger(a, x, b, row.trigger))
}

// A number, and one more for each trigger of the second list that is the same as none of the first so many of the first, and as none before it.
fn with_new(n: u32, a: &[u8], xs: Triggers, count: usize, b: &[u8], ys: Triggers) -> u32 {
    let mut all = n;
    for (i, row) in ys.rows.iter().enumerate().take(ys.count) {
        let y = row.trigger;
        if !is_among(b, y, a, xs, count) && !is_among(b, y, b, ys, i) {
            all = text::place::count_up(all);
        }
    }
    all
}

// How many different triggers two rules have.
pub fn different(a: &[u8], xs: Triggers, b: &[u8], ys: Triggers) -> u32 {
    let n = with_new(0, a, xs, 0, a, xs);
    with_new(n, a, xs, xs.count, b, ys)
}

// Have both lists the same condition at an index, or none?
fn is_same(a: &[u8], xs: Conditions, b: &[u8], ys: Conditions, i: usize) -> bool {
    if MOST <= i || xs.count <= i || ys.count <= i {
        return xs.count == ys.count;
    }
    compare::same_condition(a, xs.rows[i].condition, b, ys.rows[i].condition)
}

// The first condition that differs, counted from 1.
pub fn first_difference(a: &[u8], xs: Conditions, b: &[u8], ys: Conditions) -> u32 {
    let i = (0..MOST)
        .find(|i| !is_same(a, xs, b, ys, *i))
        .unwrap_or(MOST);
    text::place::count_up(text::place::held(i))
}
