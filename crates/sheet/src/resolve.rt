// A name looked up in the sheet, as pick_named of refs.rs does it: names are compared where they stand, and nothing is copied.
ghost use Rattle.std.specs.Prelude.{◌≡◌, ◌≤◌};
ghost use Rattle.sheet.specs.Sheet.{lines, entries};
ghost use Rattle.sheet.specs.Party.{entries_on};
ghost use Rattle.sheet.specs.Adapters.{has};
ghost use Rattle.sheet.specs.View.{view_of};
ghost use Rattle.sheet.specs.Resolve.{is_in, pick_named};
ghost use Rattle.sheet.specs.Tally.{scoped_on, tallied, line_tally, tally, no_tally, ends_with, Passed, found_by};

use crate::adapters::Adapters;
use crate::line::Line;
use crate::{View, adapters, line, rows};
use model::Ref;
use text::place;

// The adapter in a reference's parentheses: any where none is named, or one. An Option would say None where any is meant.
#[derive(Clone, Copy)]
pub enum Scope {
    Any,
    On(u32),
}

// Why no one row is found: 31 no row, 32 none in scope, 33 or 34 more than one, with the refusal's detail. The number is that of the
// documents and of the C interface.
#[derive(Clone, Copy)]
pub struct Unfound {
    pub number: u32,
    pub detail: u32,
}

// What is known of the rows with the name that were seen and are in scope: the first, how many, and whether another is on another adapter.
#[derive(Clone, Copy)]
pub struct Scoped {
    pub row: Ref,
    pub count: u32,
    pub spans: bool,
}

// What is known of the rows with the name that were seen: the first's adapter, and what is known of those in scope.
#[derive(Clone, Copy)]
pub struct Tally {
    pub first: Option<u32>,
    pub scoped: Option<Scoped>,
}

#[tactic(auto, unfolding(crate::specs::Resolve::is_in))]
fn is_in(scope: Scope, adapter: u32) -> bool
    ensures { result ≡ is_in scope adapter }
{
    match scope {
        Scope::Any => true,
        Scope::On(a) => adapter == a,
    }
}

// One more row in scope.
#[tactic(auto, unfolding(crate::specs::Tally::scoped_on))]
fn scoped_on(seen: Option<Scoped>, row: Ref) -> Scoped
    ensures { result ≡ scoped_on seen row }
{
    match seen {
        None => Scoped {
            row,
            count: 1,
            spans: false,
        },
        Some(t) => Scoped {
            row: t.row,
            count: place::count_up(t.count),
            spans: t.spans || row.adapter != t.row.adapter,
        },
    }
}

// One more row, in scope or not.
#[tactic(auto, unfolding(crate::specs::Tally::tallied))]
fn with_row(t: Tally, scope: Scope, adapter: u32, number: u32) -> Tally
    ensures { result ≡ tallied scope t adapter number }
{
    let first = t.first.or(Some(adapter));
    let scoped = if is_in(scope, adapter) {
        Some(scoped_on(t.scoped, Ref::new(adapter, number)))
    } else {
        t.scoped
    };
    Tally { first, scoped }
}

// One line more. A row on another's adapter changes nothing.
#[tactic(auto, unfolding(crate::specs::Tally::line_tally))]
fn with_line(t: Tally, own: Adapters, l: &[u8], kind: u32, name: &[u8], scope: Scope) -> Tally
    ensures { result ≡ line_tally (has own) kind name.now scope t l.now }
{
    match line::line_of(l) {
        Some(
            Line::Row {
                kind: k,
                adapter,
                number,
            },
        ) if k == kind && adapters::has(own, adapter) && text::part::same(line::name_of(l), name) =>
            { with_row(t, scope, adapter, number) }
        _ => t,
    }
}

#[tactic(auto, unfolding(crate::specs::Tally::found_by))]
fn found_by(t: Tally) -> Result<Ref, Unfound>
    ensures { result ≡ found_by t }
{
    match (t.scoped, t.first) {
        (None, None) => Err(Unfound {
            number: 31,
            detail: 0,
        }),
        (None, Some(adapter)) => Err(Unfound {
            number: 32,
            detail: adapter,
        }),
        (Some(t), _) => {
            if t.count == 1 {
                return Ok(t.row);
            }
            Err(Unfound {
                number: if t.spans { 34 } else { 33 },
                detail: t.count,
            })
        }
    }
}

// Does a line end with a name?
fn ends_with(l: &[u8], name: &[u8]) -> bool
    ensures { result ≡ ends_with l.now name.now }
{
    name.len() <= l.len() && text::part::same(&l[l.len() - name.len()..], name)
}

// From the start of a line on, the start of one before which no line has the name. A row that has it ends with a comma, the name and
// perhaps a CR, and has at least `lamp,0,0` before these: as many bytes are passed unread, and only the end of the line that is reached
// then is looked at.
fn skip_lines(s: &[u8], from: usize, name: &[u8]) -> usize
    ensures passed { Passed name.now s.now from result }
    ensures lower_bound { from ≤ result }
{
    let len = s.len();
    let least = name.len() + 9;
    if len < least {
        return from.max(len);
    }
    let last = len - least;
    let mut at = from;
    // From line to line, by the end that was found; for speed the bytes before it are passed unread.
    while at <= last {
        let end = rows::line_end(s, at + least);
        let l = line::without_return(&s[..end]);
        if l[l.len() - name.len() - 1] == b',' && ends_with(l, name) {
            return at;
        }
        at = end + 1;
    }
    at.max(len)
}

// All lines of the sheet.
fn tally_all(s: &[u8], own: Adapters, kind: u32, name: &[u8], scope: Scope) -> Tally
    ensures { result ≡ tally kind name.now scope no_tally (entries_on (has own) (entries (lines s.now))) }
{
    let mut t = Tally {
        first: None,
        scoped: None,
    };
    let mut at = skip_lines(s, 0, name);
    // From line to line, by the end that was found, past those that cannot have the name.
    while at < s.len() {
        let end = rows::line_end(s, at);
        t = with_line(t, own, text::part::part(s, at, end), kind, name, scope);
        at = skip_lines(s, end + 1, name);
    }
    t
}

impl View<'_> {
    // The one row of the kind with that name in scope, of those that the call sees.
    pub fn pick_named(&self, kind: u32, name: &[u8], scope: Scope) -> Result<Ref, Unfound>
        ensures { result ≡ pick_named kind name.now scope (view_of self.now.settings self.now.sheet.now).rows }
    {
        found_by(tally_all(self.sheet, self.settings.own, kind, name, scope))
    }
}
