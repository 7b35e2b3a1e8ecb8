// Refusals 25 and 31 to 34 of a row of the archive, said with what its party sees of the sheet.
use crate::archive::{Field, Row};
use crate::marks::Numbers;
use crate::sheets::{Name, Question};
use crate::title::Unnamed;
use crate::{lookup, marks, out, source, title};
use sheet::kind;

// What stands for the adapter of a row that names none.
const NO_ADAPTER: u32 = 256;

// What is wrong, in a sentence.
fn head(rt: &impl Print, row: Row<'_>, sheet: &[u8], number: u32, detail: u32, party: u8) {
    let adapter = row.adapter();
    if number == 25 {
        title::of_unlisted(rt, sheet, adapter.unwrap_or(NO_ADAPTER), party);
        return;
    }
    let of = Unnamed {
        number,
        kind: row.kind(),
        adapter,
        detail,
        party,
    };
    title::of_named(rt, sheet, of);
}

// A row has nearly the name; one with a comma cannot stand in a row of the archive.
fn nearly(rt: &impl Print, near: &[u8]) {
    if near.contains(&b',') {
        lookup::nearly(rt, b"");
        return;
    }
    lookup::nearly(rt, near);
}

// 31: another kind has the name, or a row of the kind has nearly that name.
fn unknown(rt: &impl Print, sheet: &[u8], name: &[u8], kind: u32) {
    match lookup::other_kind(sheet, name, kind) {
        Some(kind::INPUT) => out::text(
            rt,
            "the sheet has an input device of this name, of which no row speaks: mend the name",
        ),
        Some(other) => out::text(rt, lookup::of_other_kind(other)),
        None => nearly(rt, Question::named(kind, Name::Nearly(name)).name_on(sheet)),
    }
}

// 33: the numbers of the rows that have the name.
fn several(rt: &impl Print, sheet: &[u8], name: &[u8], kind: u32, scope: Option<u32>) {
    let mut marks = [false; 256];
    let adapter = lookup::one_adapter(sheet, name, kind, scope);
    lookup::mark_numbers(sheet, name, kind, adapter, &mut marks);
    out::text(
        rt,
        format_args!(
            "adapter {adapter} has it under {}: rename all but one on the sheet",
            Numbers(&marks)
        ),
    );
}

// 32 and 34: the adapters whose rows have the name.
fn elsewhere(rt: &impl Print, sheet: &[u8], name: &[u8], kind: u32) {
    let mut marks = [false; 256];
    Question::named(kind, Name::Is(name)).mark_adapters(sheet, &mut marks);
    let numbers = Numbers(&marks);
    if marks::count(&marks) == 1 {
        out::text(
            rt,
            format_args!("adapter {numbers} has it: write that in the third field, or nothing"),
        );
    } else {
        out::text(
            rt,
            format_args!("adapters {numbers} have it: write one of these in the third field"),
        );
    }
    if let Some(k) = lookup::to_list(sheet, &mut marks) {
        out::text(
            rt,
            format_args!("; for adapter {k} the sheet needs the row adapter,{k} first"),
        );
    }
}

// The way out.
fn help(rt: &impl Print, row: Row<'_>, sheet: &[u8], number: u32, party: u8) {
    let name = row.field(Field::Name);
    let kind = row.kind();
    let adapter = row.adapter();
    match number {
        25 => lookup::listed(rt, sheet, party, adapter.unwrap_or(NO_ADAPTER)),
        31 => unknown(rt, sheet, name, kind),
        33 => several(rt, sheet, name, kind, adapter),
        _ => elsewhere(rt, sheet, name, kind),
    }
}

// The diagnostic behind the row's number, up to the last line of the output.
pub fn show(
    rt: &impl Print,
    row: Row<'_>,
    sheet: &[u8],
    number: u32,
    n: u32,
    detail: u32,
    party: u8,
) {
    let field = if number == 25 {
        Field::Adapter
    } else {
        Field::Name
    };
    head(rt, row, sheet, number, detail, party);
    out::line_end(rt);
    row.marked_at(rt, n, field);
    out::line_end(rt);
    source::before_help(rt, n);
    help(rt, row, sheet, number, party);
    out::line_end(rt);
}
