// An answer as words: nine rows of twelve (specs/Flat.antt). include/tergyosul.h has the same layout for C.
#![tactic(auto)]

pub mod codes;
pub mod conditions;
mod parts;
pub mod rows;
pub mod triggers;

ghost use Rattle.std.specs.Prelude.{◌≡◌, [], ◌<◌, ◌≤◌, get_or};
ghost use Rattle.flat.specs.Flat.{trigger_row, condition_row, head_row, rows_set, flat};

use crate::rows::{ROW_WORDS, Row, row};
use model::{Answer, Conditions, Triggers};
use text::place;

// How many rows a list has.
pub const LIST_ROWS: usize = 4;

pub const FIRST_TRIGGER: usize = 1;

pub const FIRST_CONDITION: usize = FIRST_TRIGGER + LIST_ROWS;

const ROW_COUNT: usize = FIRST_CONDITION + LIST_ROWS;

// The length of an answer.
pub const ANSWER_WORDS: usize = ROW_COUNT * ROW_WORDS;

// The row of a list's trigger with an index: zeros where it is not in use.
#[tactic(auto, unfolding(crate::specs::Flat::trigger_row))]
fn trigger_row(list: &Triggers, i: usize) -> Row
    requires { i < 4 }
    ensures { result ≡ trigger_row list.now i }
{
    if i < list.count {
        triggers::trigger_row(list.rows[i].trigger)
    } else {
        row(&[])
    }
}

// The same of a condition.
#[tactic(auto, unfolding(crate::specs::Flat::condition_row))]
fn condition_row(list: &Conditions, i: usize) -> Row
    requires { i < 4 }
    ensures { result ≡ condition_row list.now i }
{
    if i < list.count {
        conditions::condition_row(list.rows[i].condition)
    } else {
        row(&[])
    }
}

// Writes the rows of a list, of which the first has that index.
fn put_rows(out: &mut [u32], first: usize, rows: [Row; LIST_ROWS])
    requires { first ≤ 5 }
    ensures { out.new ≡ rows_set out.old first (λ i. get_or rows i []) }
{
    for i in 0..LIST_ROWS {
        rows::put_row(out, first + i, rows[i]);
    }
}

// How the reading went.
#[tactic(auto, unfolding(crate::specs::Flat::head_row))]
fn head_row(a: &Answer) -> Row
    ensures { result ≡ head_row a.now }
{
    let t = place::held(a.triggers.count);
    let c = place::held(a.conditions.count);
    row(&[a.number, a.line, a.column, a.detail, t, c])
}

// Writes an answer. Where there is no room for all of it nothing is written.
pub fn put_answer(out: &mut [u32], a: Answer)
    ensures { out.new ≡ flat out.old a }
{
    if out.len() < ANSWER_WORDS {
        return;
    }
    let t = &a.triggers;
    let c = &a.conditions;
    rows::put_row(out, 0, head_row(&a));
    put_rows(
        out,
        FIRST_TRIGGER,
        [
            trigger_row(t, 0),
            trigger_row(t, 1),
            trigger_row(t, 2),
            trigger_row(t, 3),
        ],
    );
    put_rows(
        out,
        FIRST_CONDITION,
        [
            condition_row(c, 0),
            condition_row(c, 1),
            condition_row(c, 2),
            condition_row(c, 3),
        ],
    );
}
