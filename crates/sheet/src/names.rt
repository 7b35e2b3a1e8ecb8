// The names that the sheet has for a lamp, group, device or input device, and how one is written so that it refers to it.
ghost use Rattle.std.specs.Prelude.{◌≡◌, [], get_or};
ghost use Rattle.sheet.specs.Line.{line_of};
ghost use Rattle.sheet.specs.Adapters.{has};
ghost use Rattle.sheet.specs.View.{view_of};
ghost use Rattle.sheet.specs.Names.{is_for, is_for_line, names_for, is_found, form_of};

use crate::adapters::Adapters;
use crate::line::Line;
use crate::resolve::{Scope, Unfound};
use crate::{View, adapters, line, rows};
use model::Ref;

// A lamp, group, device or input device, as an id refers to it.
#[derive(Clone, Copy, PartialEq, Eq)]
pub struct Numbered {
    pub kind: u32,
    pub adapter: u32,
    pub number: u32,
}

// How a name is written so that it refers to one: by itself, with its adapter behind it, or in no way.
#[derive(Clone, Copy)]
pub enum Form {
    Alone,
    WithAdapter,
    Nowise,
}

#[tactic(auto, unfolding(crate::specs::Names::is_for))]
fn is_for(of: Numbered, kind: u32, adapter: u32, number: u32) -> bool
    ensures { result ≡ is_for of kind adapter number }
{
    of == Numbered {
        kind,
        adapter,
        number,
    }
}

// Is the line a row for it that the call sees?
#[tactic(auto, unfolding(crate::specs::Names::is_for_line))]
pub fn is_for_line(own: Adapters, of: Numbered, l: &[u8]) -> bool
    ensures { result ≡ is_for_line (has own) of (line_of l.now) }
{
    match line::line_of(l) {
        Some(
            Line::Row {
                kind,
                adapter,
                number,
            },
        ) => adapters::has(own, adapter) && is_for(of, kind, adapter, number),
        _ => false,
    }
}

// Was just it found?
#[tactic(auto, unfolding(crate::specs::Names::is_found))]
pub fn is_found(of: Numbered, found: Result<Ref, Unfound>) -> bool
    ensures { result ≡ is_found of found }
{
    match found {
        Ok(r) => r.adapter == of.adapter && r.number == of.number,
        Err(_) => false,
    }
}

impl<'a> View<'a> {
    // The name in the k-th row for it that the call sees, from 0 on, in the sheet's order; no bytes where there are not so many.
    pub fn name_at(&self, of: Numbered, k: u32) -> &'a [u8]
        ensures { result.now ≡ get_or (names_for of (view_of self.now.settings self.now.sheet.now).rows) k [] }
    {
        let s = self.sheet;
        let own = self.settings.own;
        let mut left = k;
        let mut at = 0;
        // From line to line, by the end that was found.
        while at < s.len() {
            let end = rows::line_end(s, at);
            let l = text::part::part(s, at, end);
            if is_for_line(own, of, l) {
                if left == 0 {
                    return line::name_of(l);
                }
                left -= 1;
            }
            at = end + 1;
        }
        &s[..0]
    }

    // How a name is written so that the call takes it for this one.
    #[tactic(auto, unfolding(crate::specs::Names::form_of, crate::specs::View::view_of))]
    pub fn form_of(&self, name: &[u8], of: Numbered) -> Form
        ensures { result ≡ form_of (view_of self.now.settings self.now.sheet.now) name.now of }
    {
        if is_found(of, self.pick_named(of.kind, name, Scope::Any)) {
            return Form::Alone;
        }
        if !self.adapter_exists(of.adapter) {
            return Form::Nowise;
        }
        if is_found(of, self.pick_named(of.kind, name, Scope::On(of.adapter))) {
            return Form::WithAdapter;
        }
        Form::Nowise
    }
}
