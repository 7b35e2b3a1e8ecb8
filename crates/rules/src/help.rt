// The way out of each refusal, in one line.
use crate::diagnose::Refusal;
use crate::range;
use wording::{day, forms, lookup, out, shop, topic};

// By the number of the refusal.
fn of_uncut(number: u32) -> &'static str {
    match number {
        2 => "this is a fault of the program, not of the rule",
        4 => "save the file as UTF-8",
        10 => "remove the character; a comment begins with `#`, and `!` stands only in `!=`",
        11 => "close the quote before the end of the line; there are no escapes",
        12 => "write at most 1000000000, or a larger unit; a decimal goes to 429496.7295",
        13 => "write a time from 0:00 to 23:59, with two digits for the minute",
        15 => "write at most four places behind the point",
        16 => "the units are `ms`, `s`, `m` and `h`",
        17 => "a duration has at most 4294967295 ms, a little over 1193h",
        18 => "write fewer places behind the point",
        _ => "split the rule into several texts",
    }
}

fn of_input(number: u32) -> &'static str {
    match number {
        26 => "name it: `group=`, `type=` or `adapter=`; the first two are `dev` and `inst`",
        27 => "drop `group`, or drop `dev` and `inst`",
        28 => "add `dev=` and `inst=`, or `group=`",
        29 => "add the instance, as in `input(\"Door\", 0)` or `inst=0`",
        _ => "write `dev` and `inst` in the place of `group`",
    }
}

fn of_form(number: u32) -> &'static str {
    match number {
        23 => "write the name, of 1 to 48 bytes",
        24 => "shorten it; a letter outside ASCII has two bytes or more",
        35 => "write `1s` or more",
        36 => "write at most 2147483.647s later or 2147483.648s earlier",
        37 => "split the rule in two",
        38 => "put a trigger first, as in `when lamp(\"Till\") turns on`",
        39 => "split the rule in two",
        40 => "leave it out: what the message says is not asked",
        63 => "leave one of them out",
        _ => "remove the rest, or put it into another rule",
    }
}

pub fn show(rt: &HostRuntime, r: Refusal<'_>) {
    let f = r.fault;
    let sheet = r.setting.sheet.bytes;
    match f.number {
        0..20 => out::text(rt, of_uncut(f.number)),
        20 | 21 => forms::show(rt, f),
        22 => range::show(rt, r),
        25 => lookup::adapters(rt, sheet, f),
        26..=30 => out::text(rt, of_input(f.number)),
        31..=34 => lookup::show(rt, sheet, f),
        50 => day::help(rt, f),
        53 => lookup::primaries(rt, sheet, f),
        n if shop::is_of_shop(n) => shop::help(rt, sheet, f),
        n if topic::is_of_topic(n) => topic::help(rt, r.setting.topics, f),
        n => out::text(rt, of_form(n)),
    }
}
