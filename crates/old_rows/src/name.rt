// The name that a row has for a lamp, a group or a device (specs/Back.antt).
ghost use Rattle.std.specs.Prelude.{◌≡◌};
ghost use Rattle.sheet.specs.View.{view_of};
ghost use Rattle.sheet.specs.Names.{names_for};
ghost use Rattle.old_rows.specs.Back.{is_fitting, first_fitting, name_back};

use sheet::names::Numbered;
use sheet::resolve::Scope;
use sheet::{View, line, names};

// May a row have this name for it?
fn is_fitting(view: &View<'_>, of: Numbered, name: &[u8]) -> bool
    ensures { result ≡ is_fitting (view_of view.now.settings view.now.sheet.now) of name.now }
{
    if line::comma(name) < name.len() {
        return false;
    }
    names::is_found(of, view.pick_named(of.kind, name, Scope::On(of.adapter)))
}

// The sheet's lines are gone through once, and only a name that is there for it is looked up.
fn first_fitting<'a>(view: &View<'a>, of: Numbered) -> &'a [u8]
    ensures { result.now ≡ first_fitting (view_of view.now.settings view.now.sheet.now) of (names_for of (view_of view.now.settings view.now.sheet.now).rows) }
{
    let own = view.settings.own;
    // A line begins behind the LF that ends the one before it: no step is the same, so no `for` counts them.
    let mut at = 0;
    while at < view.sheet.len() {
        let end = sheet::rows::line_end(view.sheet, at);
        let l = text::part::part(view.sheet, at, end);
        if names::is_for_line(own, of, l) {
            let name = line::name_of(l);
            if is_fitting(view, of, name) {
                return name;
            }
        }
        at = end + 1;
    }
    &view.sheet[..0]
}

// The name of the first sheet row for it that a row may have; no bytes where there is none.
pub fn name_back<'a>(view: &View<'a>, of: Numbered) -> &'a [u8]
    ensures { result.now ≡ name_back (view_of view.now.settings view.now.sheet.now) of }
{
    if view.adapter_exists(of.adapter) {
        return first_fitting(view, of);
    }
    &view.sheet[..0]
}
