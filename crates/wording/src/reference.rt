// The trigger, the condition or the reference that a refusal's place belongs to, found among the tokens.
use crate::lexed::Lexed;
use sheet::kind;
use tokens::kind as token_kind;

#[derive(Clone, Copy, PartialEq, Eq)]
pub enum Section {
    Trigger,
    Condition,
}

// What begins behind a token: a trigger or a condition, if one does.
pub fn section_behind(l: Lexed<'_>, i: usize) -> Option<Section> {
    if l.kind(i) != token_kind::WORD {
        return None;
    }
    match l.bytes(i) {
        b"when" => Some(Section::Trigger),
        b"if" | b"and" => Some(Section::Condition),
        _ => None,
    }
}

// The index of the last token before another behind which a trigger or a condition begins; 0 where there is none.
pub fn section_before(l: Lexed<'_>, i: usize) -> usize {
    (0..i)
        .rev()
        .find(|k| section_behind(l, *k).is_some())
        .unwrap_or(0)
}

// The index of the last `(` before a token; 0 where there is none.
fn open_before(l: Lexed<'_>, i: usize) -> usize {
    (0..i)
        .rev()
        .find(|k| l.kind(*k) == token_kind::OPEN)
        .unwrap_or(0)
}

// The kind of what the parentheses around a token refer to, as a sheet counts it; none for anything else.
pub fn kind(l: Lexed<'_>, i: usize) -> u32 {
    let open = open_before(l, i);
    match l.before(open, 1) {
        b"lamp" => kind::LAMP,
        b"group" => kind::GROUP,
        b"input" => kind::INPUT,
        b"device" if matches!(l.before(open, 2), b"input") => kind::INPUT,
        b"device" => kind::DEVICE,
        _ => kind::NONE,
    }
}

// Is the token with an index the number of an adapter, behind `adapter` and `=`?
fn is_adapter(l: Lexed<'_>, i: usize) -> bool {
    l.kind(i) == token_kind::INTEGER && matches!(l.before(i, 2), b"adapter")
}

// The last adapter in the parentheses that open before a token, if there is one.
pub fn adapter(l: Lexed<'_>, i: usize) -> Option<u32> {
    (open_before(l, i)..l.count)
        .take_while(|k| l.kind(*k) != token_kind::CLOSE)
        .filter(|k| is_adapter(l, *k))
        .last()
        .map(|k| l.number(k))
}

// Is the text at a token compared with a variable, and so no name?
pub fn is_compared(l: Lexed<'_>, i: usize) -> bool {
    match i.checked_sub(1) {
        Some(before) => matches!(l.kind(before), token_kind::EQ..=token_kind::LT),
        None => false,
    }
}
