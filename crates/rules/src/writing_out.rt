// `rules write RULES SHEET`, with perhaps options, where the rule is accepted: its text in the one form, alone on standard output, and what was left out of
// the original on standard error. Or one diagnostic.
use crate::checking::Accepted;
use crate::entry::{self, Entry};
use crate::given::{File, Setting};
use crate::reading::{ANSWER, LEX_ANSWER};
use crate::{lists, reading};
use sheet::{Call, Habit};
use wording::lexed::Lexed;
use wording::{layout, out, rewritten, say, seen, source, unlisted};

// What is said of a repeated argument, which only the archive loader takes.
fn of_repeats(rt: &HostRuntime, rule: File<'_>, setting: Setting<'_>, words: &mut [u32]) {
    let mut answer = [0u32; ANSWER];
    let plain = Setting {
        call: Call {
            habit: Habit::Rule,
            ..setting.call
        },
        ..setting
    };
    if plain.read(rule.bytes, words, &mut answer) == 63 {
        out::bytes(
            &rt.stderr(),
            b"left out: repeated arguments of `input(`, of which the last one counts\n",
        );
    }
}

// What is said of names under the shop profile, which asks for them.
fn of_shop(rt: &HostRuntime, habit: Habit, are_named: bool) {
    if let Habit::Shop = habit
        && are_named
    {
        out::bytes(
            &rt.stderr(),
            b"note: the shop profile refuses this text with 57, since it has ids; without --shop it is read as the same rule\n",
        );
    }
}

// Says what was left out.
fn left_out(
    rt: &HostRuntime,
    rule: File<'_>,
    setting: Setting<'_>,
    words: &mut [u32],
    written: &[u8],
) {
    let mut others = [0u32; tokens::lexer::LEAST_WORDS];
    let mut one = [0u32; LEX_ANSWER];
    let mut two = [0u32; LEX_ANSWER];
    of_repeats(rt, rule, setting, words);
    reading::lex(rule.bytes, words, &mut one);
    reading::lex(written, &mut others, &mut two);
    let rule = Lexed {
        text: rule.bytes,
        words,
        count: layout::detail(&one) as usize,
    };
    let form = Lexed {
        text: written,
        words: &others,
        count: layout::detail(&two) as usize,
    };
    let are_named = rewritten::show(&rt.stderr(), rule, form);
    of_shop(rt, setting.call.habit, are_named);
}

// 56: an entry has an adapter that is not listed.
fn unreached(rt: &HostRuntime, a: Accepted<'_>, e: Entry) {
    let sheet = a.setting.sheet;
    let settings = seen::settings(sheet.bytes, a.setting.call);
    let adapter = unlisted::adapter(sheet.bytes, settings, a.answer, e.row()).unwrap_or(256);
    out::shown(rt, a.rule.name);
    out::bytes(rt, b": refusal 56: ");
    e.name(rt);
    say::number(
        rt,
        adapter,
        b" needs `adapter=%n0` where it is written by ids, and no row of the sheet lists that adapter\n",
    );
    out::shown(rt, a.rule.name);
    out::bytes(rt, b": ");
    entry::line(rt, a.rule.bytes, sheet.bytes, a.answer, e.row());
    source::margin(rt, 0, b'=');
    say::number(rt, adapter, b" help: put the row `adapter,%n0` into ");
    out::shown(rt, sheet.name);
    out::bytes(rt, b"\nrefused: 56 at ");
    e.name(rt);
    out::line_end(rt);
}

// No rule that was read gets another number.
pub fn faulty(rt: &HostRuntime, number: u32) {
    say::number(
        rt,
        number,
        b"a rule that is accepted could not be written: this is a fault of the program, not of the rule\nrefused: %n0\n",
    );
}

// What came of writing a rule that is accepted, said with what its party sees of the sheet.
pub fn run(rt: &HostRuntime, a: Accepted<'_>, words: &mut [u32]) {
    let mut buffer = [0u8; writer::LEAST_BYTES];
    let text = a.rule.bytes;
    let l = lists::of(a.setting.values(text, words));
    let w = a.setting.write(text, l, &mut buffer);
    match w.number {
        0 => {
            let written = text::part::part(&buffer, 0, w.length as usize);
            left_out(rt, a.rule, a.setting, words, written);
            out::bytes(rt, written);
            out::line_end(rt);
        }
        56 => unreached(rt, a, Entry::of(a.answer, w.line)),
        number => faulty(rt, number),
    }
}
