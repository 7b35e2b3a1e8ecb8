// A list of triggers converted back to rows (specs/Back.antt).
ghost use Rattle.std.specs.Prelude.{◌≡◌, true, [], ◌∷◌, ◌++◌, ◌≤◌, length, take};
ghost use Rattle.sheet.specs.View.{view_of};
ghost use Rattle.language.specs.Limits.{most_triggers};
ghost use Rattle.writing.specs.Pieces.{decimal};
ghost use Rattle.writing.specs.Writing.{refused_at, failing};
ghost use Rattle.spelling.specs.Put.{Put, Fits};
ghost use Rattle.old_rows.specs.Back.{least_bytes, changed_by, other, changed_of, kind_word, change_word, row_bytes, is_change, after_all, first_other, by_names, by_entries, by_room, back_of};
ghost use Rattle.old_rows.specs.Made.{most_bytes, RowsMade};

use crate::row::Change;
use crate::{convert, name, row};
use model::{Aggregate, Online, Power, Ref, Trigger, TriggerRow, Triggers};
use possible::failing;
use sheet::names::Numbered;
use sheet::{Habit, Settings, View, adapters};
use spelling::numbers;
use spelling::put::put;
use writing::Written;

// How many bytes the buffer has at least, and how many four rows have at most.
pub const LEAST_BYTES: usize = 512;

const MOST_BYTES: usize = 272;

const MOST_TRIGGERS: usize = 4;

// What a trigger says: a change, and of what.
#[derive(Clone, Copy)]
pub struct Changed {
    pub change: Change,
    pub of: Numbered,
}

#[tactic(auto, unfolding(crate::specs::Back::changed_by))]
fn changed_by(change: Change, r: Ref) -> Changed
    ensures { result ≡ changed_by change r }
{
    Changed {
        change,
        of: Numbered {
            kind: convert::changed_kind(change),
            adapter: r.adapter,
            number: r.number,
        },
    }
}

// A trigger that no row says.
#[tactic(auto, unfolding(crate::specs::Back::other))]
fn other() -> Changed
    ensures { result ≡ other }
{
    changed_by(
        Change::Unknown,
        Ref {
            adapter: 0,
            number: 0,
        },
    )
}

#[tactic(auto, unfolding(crate::specs::Back::changed_of))]
fn changed_of(x: Trigger) -> Changed
    ensures { result ≡ changed_of x }
{
    match x {
        Trigger::LampTurns(r, power) => changed_by(Change::Lamp(power), r),
        Trigger::GroupBecomes(r, state) => changed_by(Change::Group(state), r),
        Trigger::DeviceOnline(r, state) => changed_by(Change::Device(state), r),
        _ => other(),
    }
}

#[tactic(auto, unfolding(crate::specs::Back::is_change))]
fn is_change(x: TriggerRow) -> bool
    ensures { result ≡ is_change x }
{
    row::is_known(changed_of(x.trigger).change)
}

// The ordinal of the first entry that no row says, triggers first, or 0: every condition is one.
fn first_other(l: Triggers, conditions: usize) -> u32
    requires { l.count ≤ most_triggers }
    ensures { result ≡ first_other l conditions }
{
    let at = failing(&l.rows[..l.count], 1, |x| is_change(*x));
    if at != 0 {
        return at;
    }
    if conditions == 0 {
        return 0;
    }
    l.count as u32 + 1
}

fn put_kind(out: &mut [u8], at: usize, change: Change) -> usize
    requires { Fits out.old at (kind_word change) }
    ensures { Put out.old at (kind_word change) out.new result }
{
    match change {
        Change::Lamp(_) => put(out, at, b"lamp,"),
        Change::Group(_) => put(out, at, b"group,"),
        Change::Device(_) => put(out, at, b"device,"),
        Change::Unknown => put(out, at, b""),
    }
}

fn put_adapter(out: &mut [u8], at: usize, adapter: u32) -> usize
    requires { Fits out.old at (0x2C ∷ decimal adapter) }
    ensures { Put out.old at (0x2C ∷ decimal adapter) out.new result }
{
    let i = put(out, at, b",");
    numbers::put_decimal(out, i, adapter as u64)
}

fn put_power(out: &mut [u8], at: usize, power: Power) -> usize
    requires { Fits out.old at (change_word (Change.Lamp power)) }
    ensures { Put out.old at (change_word (Change.Lamp power)) out.new result }
{
    match power {
        Power::On => put(out, at, b",on\n"),
        Power::Off => put(out, at, b",off\n"),
    }
}

fn put_aggregate(out: &mut [u8], at: usize, state: Aggregate) -> usize
    requires { Fits out.old at (change_word (Change.Group state)) }
    ensures { Put out.old at (change_word (Change.Group state)) out.new result }
{
    match state {
        Aggregate::AnyOn => put(out, at, b",any_on\n"),
        Aggregate::AllOff => put(out, at, b",all_off\n"),
    }
}

fn put_online(out: &mut [u8], at: usize, state: Online) -> usize
    requires { Fits out.old at (change_word (Change.Device state)) }
    ensures { Put out.old at (change_word (Change.Device state)) out.new result }
{
    match state {
        Online::GoesOffline => put(out, at, b",offline\n"),
        Online::ComesOnline => put(out, at, b",online\n"),
    }
}

// The word of a change, with the end of its row.
fn put_change(out: &mut [u8], at: usize, change: Change) -> usize
    requires { Fits out.old at (change_word change) }
    ensures { Put out.old at (change_word change) out.new result }
{
    match change {
        Change::Lamp(power) => put_power(out, at, power),
        Change::Group(state) => put_aggregate(out, at, state),
        Change::Device(state) => put_online(out, at, state),
        Change::Unknown => put(out, at, b"\n"),
    }
}

fn put_row(out: &mut [u8], at: usize, change: Change, name: &[u8], adapter: u32) -> usize
    requires { Fits out.old at (row_bytes change name.now adapter) }
    ensures { Put out.old at (row_bytes change name.now adapter) out.new result }
{
    let i = put_kind(out, at, change);
    let j = put(out, i, name);
    let k = put_adapter(out, j, adapter);
    put_change(out, k, change)
}

// Makes the rows, and gives their length, or else the ordinal of the first trigger without a name. One name is looked up for each.
fn make_rows(made: &mut [u8], view: &View<'_>, l: Triggers) -> Result<usize, u32>
    requires { (l.count ≤ most_triggers) × (length made.old ≡ most_bytes) }
    ensures { RowsMade (view_of view.now.settings view.now.sheet.now) (take l.count l.rows) result made.old made.new }
{
    let mut end: usize = 0;
    let rows = &l.rows[..l.count];
    for (i, x) in rows.iter().enumerate() {
        let changed = changed_of(x.trigger);
        let name = name::name_back(view, changed.of);
        if name.is_empty() {
            return Err(1 + i as u32);
        }
        end = put_row(made, end, changed.change, name, changed.of.adapter);
    }
    Ok(end)
}

// A refusal at a line of the sheet, or at an entry.
#[tactic(auto, unfolding(writing::specs::Writing::refused_at))]
fn refused(number: u32, line: u32) -> Written
    ensures { result ≡ (refused_at number line []).answer }
{
    Written {
        number,
        line,
        column: 0,
        detail: 0,
        length: 0,
    }
}

// The call where each entry is a change: has each a name?
fn back_changes(view: &View<'_>, l: Triggers, out: &mut [u8]) -> Written
    requires { (least_bytes ≤ length out.old) × (l.count ≤ most_triggers) }
    ensures { (result ≡ (by_names (view_of view.now.settings view.now.sheet.now) l out.old).answer) × (out.new ≡ (by_names (view_of view.now.settings view.now.sheet.now) l out.old).buffer) }
{
    let mut made = [0u8; MOST_BYTES];
    match make_rows(&mut made, view, l) {
        Ok(length) => {
            out[..length].copy_from_slice(&made[..length]);
            Written {
                number: 0,
                line: 0,
                column: 0,
                detail: 0,
                length: length as u32,
            }
        }
        Err(unnamed) => refused(62, unnamed),
    }
}

// The call where its primary adapter is its party's: is there room, and is each entry a change?
fn back_lists(view: &View<'_>, l: Triggers, conditions: usize, out: &mut [u8]) -> Written
    ensures { (result ≡ (by_room (view_of view.now.settings view.now.sheet.now) l conditions out.old true).answer) × (out.new ≡ (by_room (view_of view.now.settings view.now.sheet.now) l conditions out.old true).buffer) }
{
    if out.len() < LEAST_BYTES {
        return refused(54, 0);
    }
    if l.count < 1 {
        return refused(61, 0);
    }
    if MOST_TRIGGERS < l.count {
        return refused(61, 0);
    }
    let at = first_other(l, conditions);
    if at == 0 {
        return back_changes(view, l, out);
    }
    refused(61, at)
}

// Converts a list of triggers back to rows in a lent buffer, with a name sheet, for a party, with its own primary adapter. A list that has conditions is
// refused, whatever they are.
pub fn back(
    sheet: &[u8],
    party: u8,
    primary: u8,
    l: Triggers,
    conditions: usize,
    out: &mut [u8],
) -> Written
    ensures value { result ≡ (back_of party primary sheet.now l conditions out.old).answer }
    ensures buffer { out.new ≡ (back_of party primary sheet.now l conditions out.old).buffer }
{
    let adapter = primary as u32;
    match sheet::rows::check(sheet, party as u32) {
        Err(bad) => refused(3, bad.line),
        Ok(said) => {
            if adapters::has(said.own, adapter) {
                return back_lists(
                    &View {
                        sheet,
                        settings: Settings {
                            primary: adapter,
                            habit: Habit::Rule,
                            own: said.own,
                            listed: said.listed,
                        },
                    },
                    l,
                    conditions,
                    out,
                );
            }
            refused(53, 0)
        }
    }
}
