// `rules join A B SHEET`, with perhaps options: the joined rule in plain words, each entry behind the file that it is taken from, or one diagnostic.
use crate::given::{self, BYTES, File, NAME, Setting};
use crate::reading::ANSWER;
use crate::{diagnose, entries, entry};
use wording::options::{self, Options};
use wording::{files, layout, out, say, source};

// Two rules, and what they are joined with.
#[derive(Clone, Copy)]
struct Pair<'a> {
    a: File<'a>,
    b: File<'a>,
    setting: Setting<'a>,
}

// Why two rules are not joined: with 51 the first condition that differs, counted from 1; with 52 how many different triggers are left.
#[derive(Clone, Copy)]
enum Why {
    Conditions(u32),
    Triggers(u32),
}

// The line of a row, behind the file that its entry is taken from; nothing where the row is not in use.
fn line(rt: &HostRuntime, file: File<'_>, sheet: &[u8], answer: &[u32], row: usize) {
    if !entry::is_used(answer, row) {
        return;
    }
    out::shown(rt, file.name);
    out::bytes(rt, b": ");
    entry::line(rt, file.bytes, sheet, answer, row);
}

// How many triggers of two rules are not in the joined one, said if there are any.
fn left_out(rt: &HostRuntime, one: &[u32], two: &[u32], answer: &[u32]) {
    let all = u64::from(layout::triggers(one)) + u64::from(layout::triggers(two));
    let kept = u64::from(layout::triggers(answer));
    if kept < all {
        out::bytes(rt, b"repeated triggers left out: ");
        out::number(rt, all - kept);
        out::line_end(rt);
    }
}

// The entries of one rule that a refusal is about.
fn own_entries(rt: &HostRuntime, why: Why, file: File<'_>, sheet: &[u8], answer: &[u32]) {
    let rows = match why {
        Why::Conditions(_) => 5..9,
        Why::Triggers(_) => 1..5,
    };
    if let Why::Conditions(_) = why
        && layout::conditions(answer) == 0
    {
        out::shown(rt, file.name);
        out::bytes(rt, b": no condition\n");
        return;
    }
    for row in rows {
        line(rt, file, sheet, answer, row);
    }
}

impl Pair<'_> {
    // The lines of the joined rule.
    fn lines(self, rt: &HostRuntime, answer: &[u32]) {
        for row in 1..9u32 {
            let file = if layout::origin(answer, row) == 2 {
                self.b
            } else {
                self.a
            };
            line(rt, file, self.setting.sheet.bytes, answer, row as usize);
        }
    }

    // Both files, and what is wrong with the two rules together.
    fn head(self, rt: &HostRuntime, why: Why) {
        out::shown(rt, self.a.name);
        out::bytes(rt, b" and ");
        out::shown(rt, self.b.name);
        match why {
            Why::Conditions(n) => say::number(
                rt,
                n,
                b": refusal 51: rules are joined if they have the same conditions in the same order, and condition %n0 is the first that differs\n",
            ),
            Why::Triggers(n) => say::number(
                rt,
                n,
                b": refusal 52: a rule has at most four triggers, and %n0 different ones are left\n",
            ),
        }
    }

    // 51 or 52.
    fn not_joined(self, rt: &HostRuntime, why: Why, answer: &[u32], one: &[u32], two: &[u32]) {
        let sheet = self.setting.sheet.bytes;
        self.head(rt, why);
        own_entries(rt, why, self.a, sheet, one);
        own_entries(rt, why, self.b, sheet, two);
        way_out(rt, why);
        diagnose::verdict(rt, answer);
    }

    // What came of two rules that are both accepted, by the number of the refusal: each is read again by itself.
    fn both_read(self, rt: &HostRuntime, words: &mut [u32], answer: &[u32]) {
        let mut one = [0u32; ANSWER];
        let mut two = [0u32; ANSWER];
        let a = self.a.bytes;
        let b = self.b.bytes;
        let x = self.setting.values(a, words);
        let y = self.setting.values(b, words);
        flat::put_answer(&mut one, x);
        flat::put_answer(&mut two, y);
        let why = match layout::number(answer) {
            51 => Why::Conditions(entries::first_difference(a, x.conditions, b, y.conditions)),
            52 => Why::Triggers(entries::different(a, x.triggers, b, y.triggers)),
            _ => {
                self.lines(rt, answer);
                left_out(rt, &one, &two, answer);
                entry::verdict(rt, answer);
                return;
            }
        };
        self.not_joined(rt, why, answer, &one, &two);
    }

    // What is said of 66 in the second rule, where that comes of the first one's topics: by itself the second is not refused there.
    fn of_first(self, rt: &HostRuntime, words: &mut [u32], answer: &[u32]) {
        if layout::number(answer) != 66 {
            return;
        }
        let mut alone = [0u32; ANSWER];
        self.setting.read(self.b.bytes, words, &mut alone);
        if is_same_refusal(&alone, answer) {
            return;
        }
        source::margin(rt, layout::line(answer), b'=');
        out::bytes(rt, b" note: the topics of ");
        out::shown(rt, self.a.name);
        out::bytes(
            rt,
            b" count as earlier ones; without them this one would be taken\n",
        );
    }

    // What came of the call, said with what its party sees of the sheet.
    fn said(self, rt: &HostRuntime, words: &mut [u32], answer: &[u32]) {
        match layout::which(answer) {
            1 => diagnose::show(rt, self.a, self.setting, words, answer),
            2 => {
                diagnose::explain(rt, self.b, self.setting, words, answer);
                self.of_first(rt, words, answer);
                diagnose::verdict(rt, answer);
            }
            _ => self.both_read(rt, words, answer),
        }
    }
}

// The way out.
fn way_out(rt: &HostRuntime, why: Why) {
    source::margin(rt, 0, b'=');
    out::bytes(rt, b" help: ");
    match why {
        Why::Conditions(_) => out::bytes(
            rt,
            b"make the `if` parts the same, in the same order, or keep two rules\n",
        ),
        Why::Triggers(_) => out::bytes(
            rt,
            b"keep two rules, or drop triggers until four different ones are left\n",
        ),
    }
}

// Do two answers refuse the same at the same place?
fn is_same_refusal(one: &[u32], two: &[u32]) -> bool {
    layout::number(one) == layout::number(two)
        && layout::line(one) == layout::line(two)
        && layout::column(one) == layout::column(two)
}

// Joins the rules and says what came of it.
fn answered(rt: &HostRuntime, a: File<'_>, b: File<'_>, setting: Setting<'_>) {
    let mut words = [0u32; tokens::lexer::LEAST_WORDS];
    let mut others = [0u32; tokens::lexer::LEAST_WORDS];
    let mut answer = [0u32; ANSWER];
    let mut buffer = [0u8; BYTES];
    setting.join(a.bytes, b.bytes, &mut words, &mut others, &mut answer);
    if layout::number(&answer) == 3 {
        diagnose::bad_sheet(rt, setting.sheet, &answer);
        return;
    }
    let pair = Pair {
        a,
        b,
        setting: setting.seen(&mut buffer),
    };
    pair.said(rt, &mut words, &answer);
}

// The names of the files are the words behind the options, in a call with so many.
pub fn run(rt: &HostRuntime, o: Options, count: usize) {
    let mut a_name = [0u8; NAME];
    let mut b_name = [0u8; NAME];
    let mut sheet_name = [0u8; NAME];
    let mut a = [0u8; BYTES];
    let mut b = [0u8; BYTES];
    let mut sheet = [0u8; BYTES];
    let mut topics = [0u8; BYTES];
    let a_name = files::argument(rt, o.at, &mut a_name);
    let b_name = files::argument(rt, options::further(o.at, 1, count), &mut b_name);
    let sheet_name = files::argument(rt, options::further(o.at, 2, count), &mut sheet_name);
    if let Some(a) = given::load(rt, a_name, &mut a)
        && let Some(b) = given::load(rt, b_name, &mut b)
        && let Some(setting) = given::read_setting(rt, o, sheet_name, &mut sheet, &mut topics)
    {
        answered(rt, a, b, setting);
    }
}
