// Refusals 64 to 66, which are about the topic behind `mqtt`: what is wrong, and the way out.
use crate::characters::Quoted;
use crate::fault::Fault;
use crate::stands::Character;
use crate::{characters, near, out, split};
use topics::topic;

pub fn is_of_topic(number: u32) -> bool {
    matches!(number, 64..=66)
}

// What stands from the first character on that may not stand in a topic: by itself it would be refused as one.
fn forbidden(w: &[u8]) -> &[u8] {
    let fit = characters::of(w).take_while(|c| topic::topic_number(c.bytes) == 0);
    let (_, rest) = characters::split(w, fit.count());
    rest
}

// 64: nothing, or a character.
fn unfit(rt: &impl Print, w: &[u8]) {
    if w.is_empty() {
        out::text(rt, "this topic is empty");
        return;
    }
    let character = Character(forbidden(w));
    out::text(rt, format_args!("{character} may not stand in a topic"));
}

pub fn title(rt: &impl Print, f: Fault<'_>) {
    match f.number {
        64 => unfit(rt, f.bytes()),
        65 => {
            let n = f.lexed.length(f.token);
            out::text(
                rt,
                format_args!("a topic has at most 48 bytes, and this one has {n}"),
            );
        }
        _ => out::text(
            rt,
            "this topic is new, and eight others or more are named already",
        ),
    }
}

// The first lent topic that nearly is another.
fn near_topic<'a, 'b>(lent: &'a [u8], w: &'b [u8]) -> Option<&'a [u8]> {
    lent.split(split::is_line_end)
        .find(|l| near::is_near(*l, w))
}

// 66: a lent topic is nearly this one, or there is none.
fn nearly(rt: &impl Print, near: Option<&[u8]>) {
    match near {
        None => out::text(
            rt,
            "write a topic that is named already, or drop one from an earlier rule and from the file behind --topics",
        ),
        Some(l) if l.ends_with(b"\r") => out::text(
            rt,
            "the lines of the file behind --topics end with CR LF: save it with LF alone",
        ),
        Some(l) => out::text(
            rt,
            format_args!(
                "did you mean {}? topics are compared byte for byte",
                Quoted(l)
            ),
        ),
    }
}

// The topic of 66, which stands behind the place.
fn behind<'a>(f: Fault<'a>) -> &'a [u8] {
    if f.token < f.lexed.count {
        return f.lexed.bytes(f.token + 1);
    }
    b""
}

pub fn help(rt: &impl Print, lent: &[u8], f: Fault<'_>) {
    match f.number {
        64 => out::text(
            rt,
            "write one exact topic of 1 to 48 bytes, without `+` and `#`, control characters and noncharacters",
        ),
        65 => out::text(
            rt,
            "choose a shorter topic; a letter outside ASCII has two bytes or more",
        ),
        _ => nearly(rt, near_topic(lent, behind(f))),
    }
}
