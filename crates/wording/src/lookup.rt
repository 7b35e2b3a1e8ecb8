// The way out where a name or an adapter is not on the sheet as it is written. A sheet is here what the call's party sees of it, so that nothing of
// others is offered.
use crate::characters::Quoted;
use crate::fault::Fault;
use crate::marks::Numbers;
use crate::sheets::{Name, Question};
use crate::{items, marks, out, reference, seen, sheets};
use sheet::{Call, kind, profile};

// Says for which party the sheet lists adapters, if not all adapters are the party's.
pub fn for_party(rt: &impl Print, sheet: &[u8], party: u8) {
    if seen::is_shared(sheet, party) {
        out::text(rt, format_args!("for party {party} "));
    }
}

// 25: the adapters that the sheet lists for a party, in the place of another, which a row may list if it is the party's.
pub fn listed(rt: &impl Print, sheet: &[u8], party: u8, adapter: u32) {
    let mut marks = [false; 256];
    sheets::mark_listed(sheet, &mut marks, true);
    let numbers = Numbers(&marks);
    for_party(rt, sheet, party);
    match marks::count(&marks) {
        0 => out::text(rt, "the sheet lists no adapter: leave it out"),
        1 => out::text(
            rt,
            format_args!("the sheet lists only adapter {numbers}: write this one"),
        ),
        _ => out::text(
            rt,
            format_args!("the sheet lists the adapters {numbers}: write one of these"),
        ),
    }
    if seen::is_own(sheet, party, adapter) {
        out::text(rt, ", or add a row to the sheet");
    }
}

// The same of an adapter in a rule.
pub fn adapters(rt: &impl Print, sheet: &[u8], f: Fault<'_>) {
    listed(rt, sheet, f.call.party, f.value());
}

// 53: the adapters that the party may name as its primary.
pub fn primaries(rt: &impl Print, sheet: &[u8], f: Fault<'_>) {
    let party = f.call.party;
    let mut marks = [false; 256];
    seen::mark_own(sheet, party, &mut marks);
    let numbers = Numbers(&marks);
    match marks::count(&marks) {
        0 => out::text(
            rt,
            format_args!(
                "party {party} has no adapter on the sheet: write another party behind --party, or add a party row to the sheet"
            ),
        ),
        1 => out::text(
            rt,
            format_args!(
                "party {party} has only adapter {numbers} on the sheet: write --primary {numbers}"
            ),
        ),
        _ => out::text(
            rt,
            format_args!(
                "party {party} has the adapters {numbers} on the sheet: write one of these behind --primary"
            ),
        ),
    }
}

// The first other kind of which a row has the name.
pub fn other_kind(sheet: &[u8], name: &[u8], kind: u32) -> Option<u32> {
    (kind::LAMP..=kind::INPUT).find(|other| *other != kind
        && Question::named(*other, Name::Is(name)).has(sheet))
}

// Another kind has the name.
pub fn of_other_kind(other: u32) -> &'static str {
    match other {
        kind::LAMP => "the sheet has a lamp of this name: write `lamp`, or mend the name",
        kind::GROUP => "the sheet has a group of this name: write `group`, or mend the name",
        kind::DEVICE => "the sheet has a device of this name: write `device`, or mend the name",
        _ => "the sheet has an input device of this name: write `input`, or mend the name",
    }
}

// A row has nearly the name, unless that is empty.
pub fn nearly(rt: &impl Print, near: &[u8]) {
    if near.is_empty() {
        out::text(rt, "mend the name, or add a row with it to the sheet");
        return;
    }
    out::text(
        rt,
        format_args!(
            "did you mean {}? names are compared byte for byte",
            Quoted(near)
        ),
    );
}

// 31: another kind has the name, or a row of the kind has nearly that name.
fn unknown(rt: &impl Print, sheet: &[u8], name: &[u8], kind: u32) {
    match other_kind(sheet, name, kind) {
        Some(other) => out::text(rt, of_other_kind(other)),
        None => nearly(rt, Question::named(kind, Name::Nearly(name)).name_on(sheet)),
    }
}

// The first adapter in a set that is not listed, so that it cannot be written yet. The listed ones leave the set.
pub fn to_list(sheet: &[u8], marks: &mut [bool]) -> Option<usize> {
    sheets::mark_listed(sheet, marks, false);
    marks::first(marks)
}

// What to add to the sheet first, if there is such an adapter.
fn to_list_in_rule(rt: &impl Print, sheet: &[u8], marks: &mut [bool]) {
    if let Some(k) = to_list(sheet, marks) {
        out::text(
            rt,
            format_args!("; for adapter={k} the sheet needs the row adapter,{k} first"),
        );
    }
}

// The same for one adapter, if one is given.
fn to_list_one(rt: &impl Print, sheet: &[u8], adapter: Option<u32>) {
    let Some(k) = adapter else {
        return;
    };
    let mut marks = [false; 256];
    marks::set(&mut marks, k as usize, true);
    to_list_in_rule(rt, sheet, &mut marks);
}

// 32 and 34: the adapters whose rows have the name.
fn elsewhere(rt: &impl Print, sheet: &[u8], name: &[u8], kind: u32) {
    let mut marks = [false; 256];
    Question::named(kind, Name::Is(name)).mark_adapters(sheet, &mut marks);
    let numbers = Numbers(&marks);
    if marks::count(&marks) == 1 {
        out::text(rt, format_args!("adapter {numbers} has it: write "));
    } else {
        out::text(rt, format_args!("adapters {numbers} have it: write "));
    }
    items::names(rt, kind, name, &marks);
    to_list_in_rule(rt, sheet, &mut marks);
}

// The adapter of the rows that have the name in scope, which are all on one; 256 where there are none.
pub fn one_adapter(sheet: &[u8], name: &[u8], kind: u32, scope: Option<u32>) -> u32 {
    if let Some(adapter) = scope {
        return adapter;
    }
    let mut marks = [false; 256];
    Question::named(kind, Name::Is(name)).mark_adapters(sheet, &mut marks);
    text::place::held(marks::first(&marks).unwrap_or(256))
}

// Marks the numbers of the rows of an adapter that have the name.
pub fn mark_numbers(sheet: &[u8], name: &[u8], kind: u32, adapter: u32, marks: &mut [bool]) {
    let q = Question {
        adapter: Some(adapter),
        ..Question::named(kind, Name::Is(name))
    };
    q.mark_numbers(sheet, marks);
}

// The adapter to write behind a number: none behind one on the call's primary adapter, or where one is written already.
fn needed(primary: u8, kind: u32, scope: Option<u32>, adapter: u32) -> Option<u32> {
    if kind == kind::INPUT && scope.is_some() {
        return None;
    }
    if primary as u32 == adapter {
        return None;
    }
    Some(adapter)
}

// The numbers in a set as references, and what to add to the sheet first; nothing where a call takes no numbers.
fn numbers(
    rt: &impl Print,
    sheet: &[u8],
    marks: &[bool],
    kind: u32,
    adapter: Option<u32>,
    call: Call,
) {
    if !profile::any_form(call.habit) {
        return;
    }
    out::text(rt, "write ");
    items::numbers(rt, kind, adapter, marks);
    to_list_one(rt, sheet, adapter);
    out::text(rt, "; or ");
}

// 33: the numbers of the rows that have the name.
fn several(rt: &impl Print, sheet: &[u8], name: &[u8], kind: u32, scope: Option<u32>, call: Call) {
    let mut marks = [false; 256];
    let adapter = one_adapter(sheet, name, kind, scope);
    mark_numbers(sheet, name, kind, adapter, &mut marks);
    out::text(
        rt,
        format_args!(
            "adapter {adapter} has it under the numbers {}: ",
            Numbers(&marks)
        ),
    );
    let behind = needed(call.primary, kind, scope, adapter);
    numbers(rt, sheet, &marks, kind, behind, call);
    out::text(rt, "rename one on the sheet");
}

// The way out of 31 to 34.
pub fn show(rt: &impl Print, sheet: &[u8], f: Fault<'_>) {
    let name = f.bytes();
    let kind = reference::kind(f.lexed, f.token);
    match f.number {
        31 => unknown(rt, sheet, name, kind),
        33 => {
            let scope = reference::adapter(f.lexed, f.token);
            several(rt, sheet, name, kind, scope, f.call);
        }
        _ => elsewhere(rt, sheet, name, kind),
    }
}
