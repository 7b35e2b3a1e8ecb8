// The whole diagnostic of a refusal: its place, what is wrong, the line, what stands and what belongs there, and a way out.
use crate::given::{File, Setting};
use crate::reading::LEX_ANSWER;
use crate::{expected, help, reading};
use sheet::{Call, Habit};
use wording::fault::Fault;
use wording::lexed::Lexed;
use wording::{layout, out, say, sheet_fault, source, stands, title};

// A refusal with what it is explained by: the rule, and what it was read with, the sheet as the party sees it.
#[derive(Clone, Copy)]
pub struct Refusal<'a> {
    pub fault: Fault<'a>,
    pub rule: File<'a>,
    pub setting: Setting<'a>,
}

// The count of the text's tokens; 0 if it cannot be cut into tokens.
fn token_count(text: &[u8], words: &mut [u32]) -> usize {
    let mut answer = [0u32; LEX_ANSWER];
    if reading::lex(text, words, &mut answer) == 0 {
        return layout::detail(&answer) as usize;
    }
    0
}

// The place in a file, before what is wrong there.
fn place(rt: &HostRuntime, f: Fault<'_>) {
    let row = [f.number, f.line, f.column];
    if f.line == 0 {
        say::numbers(rt, &row, b": refusal %n0: ");
        return;
    }
    say::numbers(rt, &row, b":%n1:%n2: refusal %n0: ");
}

impl Refusal<'_> {
    // File, line, column, number and what is wrong. 53, which is about whose an adapter is, stands behind the sheet's name, all else behind the rule's.
    fn head(self, rt: &HostRuntime) {
        let f = self.fault;
        let name = if f.number == 53 {
            self.setting.sheet.name
        } else {
            self.rule.name
        };
        out::shown(rt, name);
        place(rt, f);
        title::show(rt, self.setting.sheet.bytes, f);
        out::line_end(rt);
    }

    // The line of the place, and what stands there.
    fn line(self, rt: &HostRuntime) {
        let f = self.fault;
        if f.line == 0 {
            return;
        }
        let l = source::line_of(self.rule.bytes, f.line);
        source::marked(rt, l, f.line, f.column);
        stands::show(rt, f);
        out::line_end(rt);
    }

    // What belongs there, if it helps to say that.
    fn belonging(self, rt: &HostRuntime) {
        if let 20 | 21 | 38 | 40 | 41 | 50 = self.fault.number {
            expected::show(rt, self);
        }
    }

    fn way_out(self, rt: &HostRuntime) {
        source::before_help(rt, self.fault.line);
        help::show(rt, self);
        out::line_end(rt);
    }
}

// The last line of the output.
pub fn verdict(rt: &HostRuntime, answer: &[u32]) {
    if layout::line(answer) == 0 {
        say::numbers(rt, answer, b"refused: %n0\n");
        return;
    }
    say::numbers(rt, answer, b"refused: %n0 at %n1:%n2\n");
}

// The diagnostic of a sheet that is refused with 3.
pub fn bad_sheet(rt: &HostRuntime, sheet: File<'_>, answer: &[u32]) {
    sheet_fault::show(rt, sheet.bytes, sheet.name, layout::line(answer));
    verdict(rt, answer);
}

// The diagnostic of what the answer of a call refuses, the sheet apart, of which the setting has what the party sees, up to the last line of the output.
pub fn explain(
    rt: &HostRuntime,
    rule: File<'_>,
    setting: Setting<'_>,
    words: &mut [u32],
    answer: &[u32],
) {
    let count = token_count(rule.bytes, words);
    let lexed = Lexed {
        text: rule.bytes,
        words,
        count,
    };
    let r = Refusal {
        fault: Fault::of(lexed, answer, setting.call),
        rule,
        setting,
    };
    r.head(rt);
    r.line(rt);
    r.belonging(rt);
    r.way_out(rt);
}

// The same with the last line.
pub fn show(
    rt: &HostRuntime,
    rule: File<'_>,
    setting: Setting<'_>,
    words: &mut [u32],
    answer: &[u32],
) {
    explain(rt, rule, setting, words, answer);
    verdict(rt, answer);
}

// The diagnostic of what the answer of lexing refuses, in which no sheet and no topic plays a part.
pub fn uncut(rt: &HostRuntime, rule: File<'_>, words: &mut [u32], answer: &[u32]) {
    let setting = Setting {
        call: Call {
            habit: Habit::Rule,
            party: 0,
            primary: 0,
        },
        sheet: File {
            name: rule.name,
            bytes: b"",
        },
        topics: b"",
    };
    show(rt, rule, setting, words, answer);
}
