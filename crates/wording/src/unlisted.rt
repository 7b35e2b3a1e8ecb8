// The adapter for which an entry cannot be written by ids: it is not the primary one, and no row lists it. Entries are rows of words, as include/tergyosul.h says.
use crate::layout;
use crate::value::Source;
use sheet::{Settings, View};

// Which word of a trigger's row is its adapter, by its kind, if it has one.
fn of_trigger(kind: u32) -> Option<usize> {
    match kind {
        1 | 15 => Some(2),
        2..=6 | 10..=14 => Some(1),
        _ => None,
    }
}

// The same of a condition, but for what it compares with.
fn of_condition(kind: u32) -> Option<usize> {
    match kind {
        9 => Some(2),
        3..=8 | 10 => Some(1),
        _ => None,
    }
}

// Which word of a condition's row begins what it compares with, if it does.
fn compared(kind: u32) -> Option<usize> {
    match kind {
        4 | 5 | 15 => Some(4),
        8 => Some(5),
        _ => None,
    }
}

// The adapter of a value, of which these are the words, if it has one.
fn of_value(words: &[u32]) -> Option<u32> {
    if !matches!(layout::word(words, 0), 2 | 3) {
        return None;
    }
    match Source::of(layout::word(words, 1)) {
        Source::Kind(_) => Some(layout::word(words, 2)),
        Source::Variable | Source::Nothing => None,
    }
}

// Is it one for which the entry cannot be written?
fn is_unlisted(sheet: &[u8], settings: Settings, adapter: u32) -> bool {
    adapter != settings.primary && !View { sheet, settings }.adapter_exists(adapter)
}

// The first such adapter of the entry in a row. Rows 1 to 4 are for triggers, 5 to 8 for conditions.
pub fn adapter(sheet: &[u8], settings: Settings, answer: &[u32], row: usize) -> Option<u32> {
    let words = layout::row(answer, row);
    let kind = layout::word(words, 0);
    let own = if row < 5 {
        of_trigger(kind)
    } else {
        of_condition(kind)
    };
    let value = if row < 5 { None } else { compared(kind) };
    own.map(|k| layout::word(words, k))
        .filter(|a| is_unlisted(sheet, settings, *a))
        .or_else(|| {
            value
                .and_then(|k| of_value(layout::behind(words, k)))
                .filter(|a| is_unlisted(sheet, settings, *a))
        })
}
