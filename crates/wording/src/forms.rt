// How the trigger or condition at a refusal's place is written, by an example.
use crate::fault::Fault;
use crate::reference::Section;
use crate::{out, reference};

// An example of the trigger with a first word, or of any.
fn trigger(word: &[u8]) -> &'static str {
    match word {
        b"timer" => "timer(\"Close\") fires",
        b"rule" => "rule(\"Night\") fails",
        b"controller" => "controller starts` or `controller becomes active",
        b"http" => "http trigger",
        b"mqtt" => "mqtt \"till/close\"",
        b"every" => "every 15m",
        b"at" => "at 21:30`, `at sunset - 30m` or `at 7:05 on mon..fri, sun",
        b"scene" => "scene(3) recalled",
        b"device" => "device(\"Gateway\") goes offline` or `comes online",
        b"group" => "group(\"Sales floor\") becomes all_off` or `any_on",
        b"hcl" => "hcl override starts for lamp(\"Till\")",
        b"lamp" => "lamp(\"Till\") turns on` or `lamp(\"Till\").level crosses below 20",
        b"input" => "input(\"Door\", 0) is short_press` or `becomes occupied",
        _ => "lamp(\"Till\") turns on",
    }
}

// An example of the condition with a first word, or of any.
fn condition(word: &[u8]) -> &'static str {
    match word {
        b"controller" => "controller is active",
        b"timer" => "timer(\"Close\") is running",
        b"rule" => "rule(\"Night\") is enabled",
        b"last_fired" => "last_fired(\"Night\") older than 10m",
        b"device" => "device(\"Gateway\") is online",
        b"sun" => "sun is up` or `sun is down",
        b"time" => "time in 21:00..sunrise + 30m",
        b"day" => "day in mon..fri, sun",
        b"group" => "group(\"Sales floor\") any_on` or `all_off",
        b"hcl" => "hcl is overridden for group(\"Sales floor\")",
        b"lamp" => "lamp(\"Till\") is on` or `lamp(\"Till\").level >= 100",
        b"input" => "input(\"Door\", 1) is occupied` or `.light below 300",
        b"var" => "var(\"mode\") == \"night\"` or `var(\"count\") < 5",
        _ => "lamp(\"Till\") is on",
    }
}

// The first word of the trigger or condition behind a token; no bytes if the place is there.
fn first_word<'a>(f: Fault<'a>, k: usize) -> &'a [u8] {
    match k.checked_add(1) {
        Some(first) if first < f.token => f.lexed.bytes(first),
        _ => b"",
    }
}

pub fn show(rt: &impl Print, f: Fault<'_>) {
    let k = reference::section_before(f.lexed, f.token);
    let word = first_word(f, k);
    match reference::section_behind(f.lexed, k) {
        Some(Section::Condition) => {
            out::text(rt, format_args!("write it as in `if {}`", condition(word)))
        }
        _ => out::text(rt, format_args!("write it as in `when {}`", trigger(word))),
    }
}
