// Lines of output from words. A line is given by its fields, which spaces part. The first byte of a field says what it is, and the second, a digit, which word it begins at:
//   #  a number                   +  a signed number of one word     $  a range of the text's bytes: start and length
//   ?  a number, or - for none    %  a signed number of two words    |  a choice of the words behind the digit, by a code from 1 on
//   *  the days of a set          @  `on` and the days of a set, or nothing for all seven
// A capital letter is a form: a code from 1 on, by which one of its lines is chosen; the fields of that line count the words from the code. All else is written as it stands.
// Each field is written behind a space, unless it begins with a line end.
use crate::forms::FORMS;
use crate::layout;
use std::io::{Result, Write};

// The part of bytes that a separator parts which has an index; no bytes where there is none.
fn item(list: &[u8], separator: u8, k: usize) -> &[u8] {
    list.split(|b| *b == separator).nth(k).unwrap_or(&[])
}

// The words that a field begins at.
fn words_of<'a>(words: &'a [u32], field: &[u8]) -> &'a [u32] {
    let digit = field.get(1).copied().unwrap_or(b'0');
    let k = usize::from(digit.saturating_sub(b'0'));
    words.get(k..).unwrap_or(&[])
}

// A word behind a space, unless it begins with a line end; nothing for no bytes.
fn word(out: &mut impl Write, w: &[u8]) -> Result<()> {
    if !w.is_empty() && !w.starts_with(b"\n") {
        out.write_all(b" ")?;
    }
    out.write_all(w)
}

// A space, `x` and bytes in hex.
pub fn hex(out: &mut impl Write, w: &[u8]) -> Result<()> {
    out.write_all(b" x")?;
    for b in w {
        write!(out, "{b:02x}")?;
    }
    Ok(())
}

// A space and the days of a set, from its lowest bit on: 1 for Monday to 7 for Sunday.
fn days(out: &mut impl Write, sum: u32) -> Result<()> {
    out.write_all(b" ")?;
    for day in 1..=7u32 {
        if sum >> (day - 1) & 1 == 1 {
            write!(out, "{day}")?;
        }
    }
    Ok(())
}

// `on` and the days of a set; nothing for all seven.
fn on_days(out: &mut impl Write, sum: u32) -> Result<()> {
    if sum == layout::EVERY_DAY {
        return Ok(());
    }
    out.write_all(b" on")?;
    days(out, sum)
}

// A number, or none.
fn perhaps(out: &mut impl Write, n: u32) -> Result<()> {
    if n == layout::NO_TYPE {
        return out.write_all(b" -");
    }
    write!(out, " {n}")
}

// A field that is no form, with the words that it begins at.
fn plain(out: &mut impl Write, text: &[u8], words: &[u32], field: &[u8]) -> Result<()> {
    let low = layout::word(words, 0);
    let next = layout::word(words, 1);
    match field.first() {
        Some(b'#') => write!(out, " {low}"),
        Some(b'+') => {
            let n = low.cast_signed();
            write!(out, " {n}")
        }
        Some(b'%') => {
            let n = (u64::from(next) << 32 | u64::from(low)).cast_signed();
            write!(out, " {n}")
        }
        Some(b'?') => perhaps(out, low),
        Some(b'*') => days(out, low),
        Some(b'@') => on_days(out, low),
        Some(b'$') => {
            let start = low as usize;
            hex(out, text::part::part(text, start, start + next as usize))
        }
        Some(b'|') => word(out, item(field, b'|', low as usize + 1)),
        _ => word(out, field),
    }
}

// The line of a field's form for a code, and the forms before it, which it may use; none where the field is no form.
fn form<'a>(forms: &'a [u8], field: &[u8], code: u32) -> Option<(&'a [u8], &'a [u8])> {
    let letter = *field.first()?;
    if !letter.is_ascii_uppercase() {
        return None;
    }
    let lines = item(forms, letter, 1);
    Some((item(lines, b'\n', code as usize), item(forms, letter, 0)))
}

// The fields of a line, with the forms that they may use.
fn fields(
    out: &mut impl Write,
    text: &[u8],
    words: &[u32],
    forms: &[u8],
    line: &[u8],
) -> Result<()> {
    for field in line.split(|b| *b == b' ') {
        let own = words_of(words, field);
        match form(forms, field, layout::word(own, 0)) {
            Some((inner, before)) if before.len() < forms.len() => {
                fields(out, text, own, before, inner)?
            }
            _ => plain(out, text, own, field)?,
        }
    }
    Ok(())
}

// A line of the words; ranges are of the text.
pub fn line(out: &mut impl Write, text: &[u8], words: &[u32], parts: &[u8]) -> Result<()> {
    fields(out, text, words, &FORMS, parts)
}
