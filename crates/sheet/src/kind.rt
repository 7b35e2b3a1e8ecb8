// The kinds of rows that have a name, by number. They are no enum, since `pick_named` promises its answer for every number, also for NONE, of
// which there is no row.
ghost use Rattle.std.specs.Prelude.{◌≡◌};
ghost use Rattle.sheet.specs.Kind.{kind_of, most_of};

use model::Ref;

pub const NONE: u32 = 0;

pub const LAMP: u32 = 1;

pub const GROUP: u32 = 2;

pub const DEVICE: u32 = 3;

pub const INPUT: u32 = 4;

// The kind that a word names, if it names one.
#[tactic(auto, unfolding(crate::specs::Kind::kind_of))]
pub fn kind_of(w: &[u8]) -> Option<u32>
    ensures { result ≡ kind_of w.now }
{
    if text::part::same(w, b"lamp") {
        Some(LAMP)
    } else if text::part::same(w, b"group") {
        Some(GROUP)
    } else if text::part::same(w, b"device") {
        Some(DEVICE)
    } else if text::part::same(w, b"input") {
        Some(INPUT)
    } else {
        None
    }
}

// The highest number of a kind.
#[tactic(auto, unfolding(crate::specs::Kind::most_of, model::specs::Limits::last_group, model::specs::Limits::last_short_address))]
pub fn most_of(kind: u32) -> u32
    ensures { result ≡ most_of kind }
{
    if kind == GROUP {
        Ref::MAX_GROUP
    } else {
        Ref::MAX_LAMP
    }
}
