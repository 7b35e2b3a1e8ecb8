// `rules check RULES SHEET`, with perhaps options: both lists in plain words, or one diagnostic. `write` and `rows-back` go the same way up to a rule that is
// accepted, of which they make something else.
use crate::given::{BYTES, File, Setting};
use crate::reading::ANSWER;
use crate::{diagnose, entry};
use wording::layout;

// A rule that is accepted, what it was read with, the sheet as its party sees it, and the words of its answer.
#[derive(Clone, Copy)]
pub struct Accepted<'a> {
    pub rule: File<'a>,
    pub setting: Setting<'a>,
    pub answer: &'a [u32],
}

// What `check` says of a rule that is accepted.
pub fn show(rt: &HostRuntime, a: Accepted<'_>, _words: &mut [u32]) {
    for row in 1..9 {
        entry::line(rt, a.rule.bytes, a.setting.sheet.bytes, a.answer, row);
    }
    entry::verdict(rt, a.answer);
}

// Reads the rule and says what came of it, by a closure if the rule is accepted. The words that it was read with are lent for more.
pub fn run<F: FnOnce(&HostRuntime, Accepted<'_>, &mut [u32])>(
    rt: &HostRuntime,
    rule: File<'_>,
    setting: Setting<'_>,
    accepted: F,
)
    requires { F.IsAlwaysCallable accepted }
{
    let mut words = [0u32; tokens::lexer::LEAST_WORDS];
    let mut answer = [0u32; ANSWER];
    let mut buffer = [0u8; BYTES];
    if setting.read(rule.bytes, &mut words, &mut answer) == 3 {
        diagnose::bad_sheet(rt, setting.sheet, &answer);
        return;
    }
    let setting = setting.seen(&mut buffer);
    if layout::number(&answer) != 0 {
        diagnose::show(rt, rule, setting, &mut words, &answer);
        return;
    }
    let a = Accepted {
        rule,
        setting,
        answer: &answer,
    };
    accepted(rt, a, &mut words);
}
