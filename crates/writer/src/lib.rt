// The two lists written out as a rule text (document 02, §7).
#![tactic(auto)]

mod choices;
mod conditions;
mod rule;
mod triggers;
mod values;

ghost use Rattle.std.specs.Prelude.{◌≤◌, ◌≡◌, true, [], length};
ghost use Rattle.sheet.specs.View.{view_of};
ghost use Rattle.writing.specs.Writing.{least_bytes, possible_counts, first_impossible, refused_at, by_reached, by_room, write_of};

use crate::rule::put_rule;
use possible::entries;
use sheet::{Habit, Settings, View, adapters};
use writing::{Lists, Written};

// How many bytes the buffer has at least.
pub const LEAST_BYTES: usize = 4096;

// A refusal at a line of the sheet, or at an entry.
fn refused(number: u32, line: u32) -> Written
    ensures { result ≡ (refused_at number line []).answer }
{
    Written {
        number,
        line,
        column: 0,
        detail: 0,
        length: 0,
    }
}

// The call where some text could give each entry: can it name them all?
fn write_possible(first: &[u8], second: &[u8], view: &View<'_>, l: Lists, out: &mut [u8]) -> Written
    requires { (least_bytes ≤ length out.old) × ((possible_counts l ≡ true) × (first_impossible first.now second.now l ≡ 0)) }
    ensures { (result ≡ (by_reached (view_of view.now.settings view.now.sheet.now) first.now second.now l out.old).answer) × (out.new ≡ (by_reached (view_of view.now.settings view.now.sheet.now) first.now second.now l out.old).buffer) }
{
    let primary = view.settings.primary;
    let at = entries::first_unreached(view, l);
    if at == 0 {
        let end = put_rule(out, primary, first, second, l);
        return Written {
            number: 0,
            line: 0,
            column: 0,
            detail: 0,
            length: end as u32,
        };
    }
    refused(56, at)
}

// The call where its primary adapter is its party's: is there room, and could a text give each entry?
fn write_lists(first: &[u8], second: &[u8], view: &View<'_>, l: Lists, out: &mut [u8]) -> Written
    ensures { (result ≡ (by_room (view_of view.now.settings view.now.sheet.now) first.now second.now l out.old true).answer) × (out.new ≡ (by_room (view_of view.now.settings view.now.sheet.now) first.now second.now l out.old true).buffer) }
{
    if out.len() < LEAST_BYTES {
        return refused(54, 0);
    }
    if entries::possible_counts(l) {
        let at = entries::first_impossible(first, second, l);
        if at == 0 {
            return write_possible(first, second, view, l, out);
        }
        return refused(55, at);
    }
    refused(55, 0)
}

// Writes the two lists, whose names stand in two texts, as a rule text into a lent buffer, for a party, with its own primary adapter.
pub fn write(
    first: &[u8],
    second: &[u8],
    sheet: &[u8],
    party: u8,
    primary: u8,
    l: Lists,
    out: &mut [u8],
) -> Written
    ensures value { result ≡ (write_of party primary first.now second.now sheet.now l out.old).answer }
    ensures buffer { out.new ≡ (write_of party primary first.now second.now sheet.now l out.old).buffer }
{
    let adapter = primary as u32;
    match sheet::rows::check(sheet, party as u32) {
        Err(bad) => refused(3, bad.line),
        Ok(said) => {
            if adapters::has(said.own, adapter) {
                return write_lists(
                    first,
                    second,
                    &View {
                        sheet,
                        settings: Settings {
                            primary: adapter,
                            habit: Habit::Rule,
                            own: said.own,
                            listed: said.listed,
                        },
                    },
                    l,
                    out,
                );
            }
            refused(53, 0)
        }
    }
}
