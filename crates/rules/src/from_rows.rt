// `rules rows FILE SHEET`, with perhaps options: each row of the archive, and its trigger in plain words; or one diagnostic.
use crate::given::{BYTES, File, Setting};
use crate::reading::ANSWER;
use crate::{diagnose, entry};
use wording::archive::Row;
use wording::{archive, archive_name, layout, out, say};

// A row and its trigger; nothing where there is no such row.
fn line(rt: &HostRuntime, rows: &[u8], sheet: &[u8], answer: &[u32], n: u32) {
    let row = n as usize;
    if !entry::is_used(answer, row) {
        return;
    }
    say::number(rt, n, b"row %n0, `");
    out::shown(rt, Row::of(rows, n).0);
    out::bytes(rt, b"`: ");
    entry::line(rt, b"", sheet, answer, row);
}

// File, row and number, before what is wrong.
fn head(rt: &HostRuntime, answer: &[u32], name: &[u8]) {
    out::shown(rt, name);
    if layout::line(answer) == 0 {
        say::numbers(rt, answer, b": refusal %n0: ");
        return;
    }
    say::numbers(rt, answer, b":%n1: refusal %n0: ");
}

// The last line of the output.
fn verdict(rt: &HostRuntime, answer: &[u32]) {
    if layout::line(answer) == 0 {
        say::numbers(rt, answer, b"refused: %n0\n");
        return;
    }
    say::numbers(rt, answer, b"refused: %n0 at row %n1\n");
}

// The diagnostic of a row: 60, 25 or 31 to 34.
fn refused(rt: &HostRuntime, rows: File<'_>, setting: Setting<'_>, answer: &[u32]) {
    let number = layout::number(answer);
    let n = layout::line(answer);
    head(rt, answer, rows.name);
    if number == 60 {
        archive::malformed(rt, rows.bytes, n);
    } else {
        archive_name::show(
            rt,
            Row::of(rows.bytes, n),
            setting.sheet.bytes,
            number,
            n,
            layout::detail(answer),
            setting.call.party,
        );
    }
    verdict(rt, answer);
}

// 53, in which no text has a part.
fn not_own(rt: &HostRuntime, setting: Setting<'_>, answer: &[u32]) {
    let mut words = [0u32; tokens::lexer::LEAST_WORDS];
    let none = File {
        name: setting.sheet.name,
        bytes: b"",
    };
    let alone = Setting {
        topics: b"",
        ..setting
    };
    diagnose::show(rt, none, alone, &mut words, answer);
}

// What came of the call, said with what its party sees of the sheet.
fn said(rt: &HostRuntime, rows: File<'_>, setting: Setting<'_>, answer: &[u32]) {
    match layout::number(answer) {
        0 => {
            for n in 1..5 {
                line(rt, rows.bytes, setting.sheet.bytes, answer, n);
            }
            entry::verdict(rt, answer);
        }
        53 => not_own(rt, setting, answer),
        _ => refused(rt, rows, setting, answer),
    }
}

// Converts the rows and says what came of it.
pub fn run(rt: &HostRuntime, rows: File<'_>, setting: Setting<'_>) {
    let mut answer = [0u32; ANSWER];
    let mut buffer = [0u8; BYTES];
    setting.convert(rows.bytes, &mut answer);
    if layout::number(&answer) == 3 {
        diagnose::bad_sheet(rt, setting.sheet, &answer);
        return;
    }
    said(rt, rows, setting.seen(&mut buffer), &answer);
}
