// Lookups on a well-formed name sheet, or on what a party sees of one. A kind is a number of sheet::kind, as the rows of a
// sheet have it there.
use crate::{marks, near, split};
use sheet::line::Line;
use sheet::{line, rows};

// The most lines of a sheet.
pub const MOST_LINES: usize = rows::LAST_LINE as usize;

// What is asked of a row's name.
#[derive(Clone, Copy)]
pub enum Name<'a> {
    Any,
    Is(&'a [u8]),
    Nearly(&'a [u8]),
}

// What is asked of the rows: a kind, and perhaps an adapter, a number and a name.
#[derive(Clone, Copy)]
pub struct Question<'a> {
    pub kind: u32,
    pub adapter: Option<u32>,
    pub number: Option<u32>,
    pub name: Name<'a>,
}

// The adapter and the number of a row.
#[derive(Clone, Copy)]
struct Place {
    adapter: u32,
    number: u32,
}

impl Name<'_> {
    fn fits(self, name: &[u8]) -> bool {
        match self {
            Name::Any => true,
            Name::Is(asked) => text::part::same(name, asked),
            Name::Nearly(asked) => near::is_near(name, asked),
        }
    }
}

impl<'a> Question<'a> {
    // The rows of a kind that have a name, or nearly have it, on any adapter.
    pub fn named(kind: u32, name: Name<'a>) -> Self {
        Question {
            kind,
            adapter: None,
            number: None,
            name,
        }
    }

    // The place of the row that a line is, if it is one that was asked for.
    fn place(self, l: &[u8]) -> Option<Place> {
        match line::line_of(l) {
            Some(
                Line::Row {
                    kind,
                    adapter,
                    number,
                },
            ) if self.kind == kind
                && self.adapter.is_none_or(|asked| asked == adapter)
                && self.number.is_none_or(|asked| asked == number)
                && self.name.fits(line::name_of(l)) => { Some(Place { adapter, number }) }
            _ => None,
        }
    }

    // Is the line a row that was asked for?
    pub fn fits(self, l: &[u8]) -> bool {
        self.place(l).is_some()
    }

    // The index of the first line that was asked for.
    pub fn first(self, s: &[u8]) -> Option<usize> {
        s.split(split::is_line_end)
            .take(MOST_LINES)
            .position(|l| self.fits(l))
    }

    // Is there a row that was asked for?
    pub fn has(self, s: &[u8]) -> bool {
        self.first(s).is_some()
    }

    // The name of the first row that was asked for; no bytes where there is none.
    pub fn name_on(self, s: &[u8]) -> &[u8] {
        s.split(split::is_line_end)
            .take(MOST_LINES)
            .find(|l| self.fits(*l))
            .map_or(b"", line::name_of)
    }

    // Marks the adapters of the rows that were asked for.
    pub fn mark_adapters(self, s: &[u8], marks: &mut [bool]) {
        mark(s, marks, true, |l| self.place(l).map(|p| p.adapter));
    }

    // Marks the numbers of the rows that were asked for.
    pub fn mark_numbers(self, s: &[u8], marks: &mut [bool]) {
        mark(s, marks, true, |l| self.place(l).map(|p| p.number));
    }
}

// Marks what a line gives, or takes it out of the set.
pub fn mark<F: Fn(&[u8]) -> Option<u32>>(s: &[u8], marks: &mut [bool], is_in: bool, of: F)
    requires { F.IsAlwaysCallable of }
{
    for l in s.split(split::is_line_end).take(MOST_LINES) {
        if let Some(k) = of(l) {
            marks::set(marks, k as usize, is_in);
        }
    }
}

// The adapter that a line lists, if it lists one.
fn listed(l: &[u8]) -> Option<u32> {
    match line::line_of(l) {
        Some(Line::Adapter(a)) => Some(a),
        _ => None,
    }
}

// Marks the listed adapters, or takes them out.
pub fn mark_listed(s: &[u8], marks: &mut [bool], is_in: bool) {
    mark(s, marks, is_in, listed);
}
