// Refusal 3: what is wrong with a line of the name sheet, and the way out. A line is looked at and shown without the CR that belongs to its end.
use crate::characters::Shown;
use crate::sheets::MOST_LINES;
use crate::{out, source, split};
use sheet::line;
use sheet::line::Line;

// What is wrong with a line behind the first that is no row of an adapter.
fn of_row(l: &[u8]) -> &'static str {
    let rows: [&[u8]; 4] = [b"lamp,", b"group,", b"device,", b"input,"];
    if !rows.iter().any(|word| l.starts_with(*word)) {
        return "a row begins with adapter, party, lamp, group, device or input and a comma";
    }
    if split::count(l, b',') < 3 {
        return "a row has four fields: kind, adapter, number and name";
    }
    "the adapter is 0 to 255, the number 0 to 63 (of a group 0 to 15), without leading zeros or blanks; the name has 1 to 48 bytes and no quote"
}

// What is wrong with a row that says whose an adapter is: one that is well formed is the second for its adapter.
fn of_party(l: &[u8]) -> &'static str {
    match line::line_of(l) {
        Some(Line::Party { .. }) => {
            "an adapter has one party row, and a row above says already whose this adapter is: remove one of the two"
        }
        _ => {
            "behind `party,` stand an adapter and a party, each a number from 0 to 255 without leading zeros or blanks, and a comma between them"
        }
    }
}

// What is wrong with a line behind the first.
fn of_line(l: &[u8]) -> &'static str {
    if l.is_empty() {
        return "remove the empty line";
    }
    if matches!(line::line_of(l), Some(Line::Primary(_))) {
        return "`primary` stands only in the first line";
    }
    if l.starts_with(b"adapter,") {
        return "an adapter is a number from 0 to 255 without a leading zero or blanks";
    }
    if l.starts_with(b"party,") {
        return of_party(l);
    }
    of_row(l)
}

// What is wrong with the line that has a number.
fn remedy(l: &[u8], line: u32) -> &'static str {
    if MOST_LINES < line as usize {
        return "a sheet has at most 512 rows behind its first line";
    }
    if l.contains(&b'\r') {
        return "a line may have one CR, at its end: remove any other";
    }
    if line == 1 {
        return "the first line is `primary,` and the number of the primary adapter, 0 to 255";
    }
    of_line(l)
}

// The diagnostic for a line of the sheet, 0 if the sheet is too long, up to the last line of the output.
pub fn show(rt: &impl Print, sheet: &[u8], name: &[u8], line: u32) {
    let name = Shown(name);
    if line == 0 {
        out::text(
            rt,
            format_args!("{name}: refusal 3: the name sheet has more than 16,384 bytes\n"),
        );
        out::text(
            rt,
            "  = help: leave out rows that no rule of this controller uses\n",
        );
        return;
    }
    let l = source::line_of(sheet, line);
    out::text(
        rt,
        format_args!("{name}:{line}: refusal 3: this line of the name sheet is not well formed\n"),
    );
    source::empty_line(rt, line);
    source::numbered(rt, l, line, 0);
    source::empty_line(rt, line);
    source::before_help(rt, line);
    out::text(rt, remedy(l, line));
    out::line_end(rt);
}
