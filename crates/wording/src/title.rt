// What is wrong, in one sentence for each refusal. A refusal is its number, as include/tergyosul.h and the output have it.
use crate::fault::Fault;
use crate::{out, parts, reference, seen, shop, topic};

// 24 for a text that is compared with a variable, or for a name.
fn too_long(rt: &impl Print, f: Fault<'_>) {
    let n = f.lexed.length(f.token);
    if reference::is_compared(f.lexed, f.token) {
        out::text(
            rt,
            format_args!("a text for a variable has at most 16 bytes, and this one has {n}"),
        );
        return;
    }
    out::text(
        rt,
        format_args!("a name has at most 48 bytes, and this one has {n}"),
    );
}

// What 31 to 34 are about: a kind, an adapter if one is given, and the refusal with its detail, for a party.
#[derive(Clone, Copy)]
pub struct Unnamed {
    pub number: u32,
    pub kind: u32,
    pub adapter: Option<u32>,
    pub detail: u32,
    pub party: u8,
}

// 31 to 34. With 31 it is said if not all adapters belong to the party.
pub fn of_named(rt: &impl Print, sheet: &[u8], of: Unnamed) {
    let kinds = parts::kinds_word(of.kind);
    let detail = of.detail;
    match of.number {
        31 if seen::is_shared(sheet, of.party) => out::text(
            rt,
            format_args!(
                "none of the {kinds} that the sheet has for party {} has this name",
                of.party
            ),
        ),
        31 => out::text(
            rt,
            format_args!("none of the {kinds} on the sheet has this name"),
        ),
        32 => out::text(
            rt,
            format_args!(
                "none of the {kinds} of adapter {} has this name, but one of another adapter has it",
                of.adapter.unwrap_or(256)
            ),
        ),
        33 => out::text(
            rt,
            format_args!("{detail} {kinds} of one adapter have this name"),
        ),
        _ => out::text(
            rt,
            format_args!("{detail} {kinds} on several adapters have this name"),
        ),
    }
}

// The same of a name in a rule.
fn of_name(rt: &impl Print, sheet: &[u8], f: Fault<'_>) {
    let of = Unnamed {
        number: f.number,
        kind: reference::kind(f.lexed, f.token),
        adapter: reference::adapter(f.lexed, f.token),
        detail: f.detail,
        party: f.call.party,
    };
    of_named(rt, sheet, of);
}

// 25 for an adapter of the party's, which only lacks a row, or for another.
pub fn of_unlisted(rt: &impl Print, sheet: &[u8], adapter: u32, party: u8) {
    if seen::is_own(sheet, party, adapter) {
        out::text(rt, "this adapter is not listed on the sheet");
        return;
    }
    out::text(rt, format_args!("adapter {adapter} is not party {party}'s"));
}

// By the number of the refusal.
fn of_uncut(number: u32) -> &'static str {
    match number {
        1 => "the text has more than 16,384 bytes",
        2 => "there is too little room for the tokens",
        4 => "the text is not UTF-8",
        10 => "no token begins with this character",
        11 => "this text is not closed on its line",
        12 => "this number is too large",
        13 => "this is no time of day",
        15 => "this decimal has more than four places",
        16 => "this number has a unit that there is not",
        17 => "this duration is too long",
        18 => "this duration is no whole number of milliseconds",
        19 => "the text has more than 1,024 tokens",
        _ => "the text is refused",
    }
}

fn of_form(number: u32) -> &'static str {
    match number {
        20 => "something else belongs here",
        21 => "this word is none of the choices",
        22 => "this number is out of range",
        23 => "this name is empty",
        26 => "this is a third argument without a name",
        27 => "`group` stands together with `dev` or `inst`",
        28 => "the input has neither `dev` nor `group`",
        29 => "the input has `dev` and no `inst`",
        30 => "this form needs one instance, not a group of them",
        35 => "this period is below one second",
        36 => "this is too far from the solar event",
        37 => "a rule has at most four triggers, and this `when` is the fifth",
        38 => "a rule begins with `when`",
        39 => "a rule has at most four conditions, and this `and` begins the fifth",
        40 => "`is` behind a topic is left out of the language",
        41 => "the text goes on after the rule",
        50 => "this word is no day of the week",
        63 => "this argument is given twice",
        _ => "the text is refused",
    }
}

// 53: the adapter is not the party's.
fn not_own(rt: &impl Print, f: Fault<'_>) {
    let adapter = f.call.primary;
    let party = f.call.party;
    out::text(
        rt,
        format_args!(
            "adapter {adapter} is not party {party}'s, so it cannot be its primary adapter"
        ),
    );
}

pub fn show(rt: &impl Print, sheet: &[u8], f: Fault<'_>) {
    match f.number {
        0..=19 => out::text(rt, of_uncut(f.number)),
        20 if f.is_at_end() => out::text(rt, "the text ends before the rule does"),
        24 => too_long(rt, f),
        25 => of_unlisted(rt, sheet, f.value(), f.call.party),
        31..=34 => of_name(rt, sheet, f),
        53 => not_own(rt, f),
        _ if shop::is_of_shop(f.number) => shop::title(rt, f),
        _ if topic::is_of_topic(f.number) => topic::title(rt, f),
        _ => out::text(rt, of_form(f.number)),
    }
}
