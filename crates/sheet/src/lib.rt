// The name sheet, and the lookups in it.
#![tactic(auto)]

pub mod adapters;
pub mod kind;
pub mod line;
pub mod names;
pub mod profile;
pub mod resolve;
pub mod rows;

use adapters::Adapters;

// Which texts a call takes. By default a repeated argument of `input(` is refused; the archive loader lets it replace the earlier one; under the
// shop profile there is besides no numbered reference, no broadcast and no `event` reading.
#[derive(Clone, Copy)]
pub enum Habit {
    Rule,
    Archive,
    Shop,
}

// What a call names beside its text and its sheet: whose call it is, and the adapter of a reference that names none.
#[derive(Clone, Copy)]
pub struct Call {
    pub habit: Habit,
    pub party: u8,
    pub primary: u8,
}

// What a call goes by in its reading: of the sheet, which adapters are the party's, and which are listed, its own or another's.
#[derive(Clone, Copy)]
pub struct Settings {
    pub primary: u32,
    pub habit: Habit,
    pub own: Adapters,
    pub listed: Adapters,
}

// What a call sees of its sheet: the bytes, and what it goes by. Its methods stand where their subject does: rows.rt, resolve.rt, names.rt.
#[derive(Clone, Copy)]
pub struct View<'a> {
    pub sheet: &'a [u8],
    pub settings: Settings,
}
