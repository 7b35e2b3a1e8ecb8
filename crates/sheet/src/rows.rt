// The lines of the name sheet: question 3, and the lookups that need no name.
ghost use Rattle.std.specs.Prelude.{◌≡◌, ◌+◌, drop, List, []};
ghost use Rattle.sheet.specs.Sheet.{lines, line_end, is_primary, primary_line};
ghost use Rattle.sheet.specs.View.{settings_of, view_of};
ghost use Rattle.sheet.specs.Survey.{is_named, may_add, added, none_said, survey_from, survey_of};

use crate::adapters::Adapters;
use crate::line::Line;
use crate::{View, adapters, line};

pub const MAX_ROWS: u32 = 512;

// The first line is no row.
pub const LAST_LINE: u32 = MAX_ROWS + 1;

pub const MAX_SHEET_BYTES: usize = 16384;

// What the lines so far say of adapters: whose is said, which are the party's, and which are listed.
#[derive(Clone, Copy)]
pub struct Said {
    pub owners: Adapters,
    pub own: Adapters,
    pub listed: Adapters,
}

// Question 3's answer where the sheet is not well formed: the first bad line, 0 of a sheet that is too long; and what the lines ahead of it say of
// adapters. The line is a number, which the C interface gives with refusal 3.
#[derive(Clone, Copy)]
pub struct BadLine {
    pub line: u32,
    pub said: Said,
}

// The offset of the LF that ends the line at an offset; the length of the sheet where there is none. Lines are gone through by their ends, as
// this finds them, eight bytes a turn: a split of the bytes by a closure would ask each by itself.
pub fn line_end(s: &[u8], at: usize) -> usize
    ensures { result ≡ line_end s.now at }
{
    text::find::find(s, at, b'\n')
}

// A row with a name? It says nothing of its adapter.
#[tactic(auto, unfolding(crate::specs::Survey::is_named))]
fn is_named(l: Option<Line>) -> bool
    ensures { result ≡ is_named l }
{
    matches!(l, Some(Line::Row { .. }))
}

// May this line follow the first and those that said so much?
#[tactic(auto, unfolding(crate::specs::Survey::may_add))]
fn may_add(said: Said, l: Option<Line>) -> bool
    ensures { result ≡ may_add said l }
{
    match l {
        Some(Line::Adapter(_) | Line::Row { .. }) => true,
        Some(Line::Party { adapter, .. }) => !adapters::has(said.owners, adapter),
        Some(Line::Primary(_)) | None => false,
    }
}

// What is said with one line more.
#[tactic(auto, unfolding(crate::specs::Survey::added))]
fn added(party: u32, said: Said, l: Option<Line>) -> Said
    ensures { result ≡ added party said l }
{
    let owners = said.owners;
    let own = said.own;
    let listed = said.listed;
    match l {
        Some(Line::Adapter(a)) => Said {
            owners,
            own,
            listed: adapters::put(listed, a, true),
        },
        Some(
            Line::Party {
                adapter: a,
                party: p,
            },
        ) => Said {
            owners: adapters::put(owners, a, true),
            own: adapters::put(own, a, p == party),
            listed,
        },
        Some(Line::Primary(_) | Line::Row { .. }) | None => said,
    }
}

#[tactic(auto, unfolding(crate::specs::Sheet::is_primary))]
fn is_primary(l: Option<Line>) -> bool
    ensures { result ≡ is_primary l }
{
    matches!(l, Some(Line::Primary(_)))
}

#[tactic(auto, unfolding(crate::specs::Survey::none_said))]
fn none_said(party: u32) -> Said
    ensures { result ≡ none_said party }
{
    Said {
        owners: adapters::all_if(false),
        own: adapters::all_if(party == 0),
        listed: adapters::all_if(false),
    }
}

// The lines from an offset on, of which the first has the number 2. Most have names, and are passed without a look at what was said. They are
// counted beside their offsets: a `for` over the numbers would ask once more behind it whether a line is left.
fn following_check(s: &[u8], from: usize, party: u32, none: Said) -> Result<Said, BadLine>
    ensures { result ≡ survey_from party 2 none (lines (drop from s.now)) }
{
    let mut said = none;
    let mut at = from;
    let mut n: u32 = 2;
    while at < s.len() {
        if LAST_LINE < n {
            return Err(BadLine { line: n, said });
        }
        let end = line_end(s, at);
        let l = line::line_of(text::part::part(s, at, end));
        if !is_named(l) {
            if !may_add(said, l) {
                return Err(BadLine { line: n, said });
            }
            said = added(party, said, l);
        }
        n += 1;
        at = end + 1;
    }
    Ok(said)
}

// Is the sheet well formed, and what does it say of the party's adapters? Else its first bad line.
pub fn check(s: &[u8], party: u32) -> Result<Said, BadLine>
    ensures { result ≡ survey_of party s.now }
{
    let none = none_said(party);
    if MAX_SHEET_BYTES < s.len() {
        return Err(BadLine {
            line: 0,
            said: none,
        });
    }
    if s.len() == 0 {
        return Err(BadLine {
            line: 1,
            said: none,
        });
    }
    let end = line_end(s, 0);
    let first = line::line_of(text::part::part(s, 0, end));
    if is_primary(first) {
        return following_check(s, end + 1, party, none);
    }
    Err(BadLine {
        line: 1,
        said: none,
    })
}

// The sheet's own primary adapter, which its first line names; 0 where it names none, as `tergyosul_sheet_primary` promises it to C.
pub fn primary(s: &[u8]) -> u32
    ensures { result ≡ primary_line (lines s.now) }
{
    match line::line_of(text::part::part(s, 0, line_end(s, 0))) {
        Some(Line::Primary(a)) => a,
        _ => 0,
    }
}

impl View<'_> {
    // Does the call see this adapter as listed?
    #[tactic(auto, unfolding(crate::specs::View::view_of))]
    pub fn adapter_exists(&self, a: u32) -> bool
        ensures { result ≡ (view_of self.now.settings self.now.sheet.now).listed a }
    {
        adapters::has(self.settings.own, a) && adapters::has(self.settings.listed, a)
    }
}
