// The line of a text with a mark under a place. Of a long line a window of 100 characters is shown.
use crate::characters::{Blanks, ELLIPSIS, Shown};
use crate::{characters, out, split};
use sheet::line;

// The most characters of a line that are shown, and how many of them stand before a column in a window.
const MOST_SHOWN: usize = 100;

const BEFORE_COLUMN: usize = 61;

// As many spaces as a number has digits, and a sign behind one more.
pub fn margin(rt: &impl Print, line: u32, sign: u8) {
    for _ in 0..=line.checked_ilog10().unwrap_or(0) {
        out::byte(rt, b' ');
    }
    out::bytes(rt, &[b' ', sign]);
}

// A margin and a line's end.
pub fn empty_line(rt: &impl Print, line: u32) {
    margin(rt, line, b'|');
    out::line_end(rt);
}

// A way out behind its margin, up to the line's end.
pub fn before_help(rt: &impl Print, line: u32) {
    margin(rt, line, b'=');
    out::text(rt, " help: ");
}

// The line with a number, without a CR at its end.
pub fn line_of(text: &[u8], line: u32) -> &[u8] {
    line::without_return(split::line(text, line))
}

// The column of an offset in a line, counted in characters from 1.
pub fn column(l: &[u8], at: usize) -> u32 {
    let before = characters::of(text::part::part(l, 0, at));
    text::place::count_up(text::place::held(before.count()))
}

// How many characters are left out at the front of a line, so that a column is shown.
fn left_out(l: &[u8], column: usize) -> usize {
    let (_, rest) = characters::split(l, MOST_SHOWN);
    if rest.is_empty() {
        return 0;
    }
    column.saturating_sub(BEFORE_COLUMN)
}

// What stands for the characters that are left out at the front, if there are any.
fn before(first: usize, sign: &'static str) -> &'static str {
    if first == 0 { "" } else { sign }
}

// The line, or 100 characters of it from so many on.
fn window(rt: &impl Print, l: &[u8], first: usize) {
    let (_, rest) = characters::split(l, first);
    let (shown, more) = characters::split(rest, MOST_SHOWN);
    let end = if more.is_empty() { "" } else { ELLIPSIS };
    let front = before(first, ELLIPSIS);
    out::text(rt, format_args!("{front}{}{end}", Shown(shown)));
}

// What stands before a column, in blanks.
fn indent(rt: &impl Print, l: &[u8], first: usize, column: usize) {
    let (front, _) = characters::split(l, column.saturating_sub(1));
    let (_, shown) = characters::split(front, first);
    out::text(rt, format_args!("{}{}", before(first, " "), Blanks(shown)));
}

// A line behind its number.
pub fn numbered(rt: &impl Print, l: &[u8], line: u32, first: usize) {
    out::text(rt, format_args!("{line} |"));
    if !l.is_empty() {
        out::byte(rt, b' ');
        window(rt, l, first);
    }
    out::line_end(rt);
}

// The line of a place, and a mark under the place; what is said of it goes behind the mark.
pub fn marked(rt: &impl Print, l: &[u8], line: u32, column: u32) {
    let first = left_out(l, column as usize);
    empty_line(rt, line);
    numbered(rt, l, line, first);
    margin(rt, line, b'|');
    out::byte(rt, b' ');
    indent(rt, l, first, column as usize);
    out::bytes(rt, b"^ ");
}
