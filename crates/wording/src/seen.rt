// What a party sees of a name sheet. All that this program says of names and adapters is looked up in the lines that the party sees.
use crate::sheets::MOST_LINES;
use crate::{sheets, split, trial};
use sheet::adapters::Adapters;
use sheet::line::Line;
use sheet::rows::Said;
use sheet::{Call, Settings, adapters, line, rows};

// What a sheet says of a party's adapters.
fn said(sheet: &[u8], party: u8) -> Said {
    match rows::check(sheet, u32::from(party)) {
        Ok(said) => said,
        Err(bad) => bad.said,
    }
}

// The party's adapters, on a well-formed sheet.
fn own(sheet: &[u8], party: u8) -> Adapters {
    said(sheet, party).own
}

// What a call goes by, on a well-formed sheet.
pub fn settings(sheet: &[u8], call: Call) -> Settings {
    let said = said(sheet, call.party);
    Settings {
        primary: u32::from(call.primary),
        habit: call.habit,
        own: said.own,
        listed: said.listed,
    }
}

// Is the adapter the party's?
pub fn is_own(sheet: &[u8], party: u8, adapter: u32) -> bool {
    adapters::has(own(sheet, party), adapter)
}

// Is an adapter not the party's?
pub fn is_shared(sheet: &[u8], party: u8) -> bool {
    let set = own(sheet, party);
    (0..256).any(|a| !adapters::has(set, a))
}

// The adapter that a row of the sheet speaks of, if it is in a set.
fn adapter_in(set: Adapters, l: &[u8]) -> Option<u32> {
    match line::line_of(l) {
        Some(Line::Adapter(adapter) | Line::Party { adapter, .. } | Line::Row { adapter, .. })
            if adapters::has(set, adapter) => { Some(adapter) }
        _ => None,
    }
}

// Marks the party's adapters that the sheet speaks of, among 256.
pub fn mark_own(sheet: &[u8], party: u8, marks: &mut [bool]) {
    let set = own(sheet, party);
    sheets::mark(sheet, marks, true, |l| adapter_in(set, l));
}

// Does the line list an adapter outside a set, or name something on one?
fn is_others(set: Adapters, l: &[u8]) -> bool {
    match line::line_of(l) {
        Some(Line::Adapter(adapter) | Line::Row { adapter, .. }) => !adapters::has(set, adapter),
        _ => false,
    }
}

// Puts the lines of the sheet into a lent buffer, in their order, but adapters and names of others, and answers how many bytes they have. With these the
// party's calls are answered as with the whole sheet.
pub fn put(sheet: &[u8], party: u8, into: &mut [u8]) -> usize {
    let set = own(sheet, party);
    let mut size = 0;
    for l in sheet.split_inclusive(split::is_line_end).take(MOST_LINES) {
        if !is_others(set, l.strip_suffix(b"\n").unwrap_or(l)) {
            size = trial::bytes(into, size, l);
        }
    }
    size
}
