// `rules same A B`: whether two rules have the same tokens, or where the first difference is, or one diagnostic. With the same tokens all calls read both
// alike (`layout-changes-nothing`, crates/language/proofs/ReflowTheorem.antt).
use crate::given::{self, BYTES, File, NAME};
use crate::lexed::{self, Lexed};
use crate::reading::LEX_ANSWER;
use tokens::{kind, record};
use wording::{files, layout, out, say, source, stands};

// Where a token begins, or a text ends.
#[derive(Clone, Copy)]
struct Place {
    line: u32,
    column: u32,
}

// The place of the token with an index; that of the end where there are not so many.
fn place_of(rule: Lexed<'_>, i: usize) -> Place {
    if i < rule.count() {
        return Place {
            line: record::line(rule.words, i),
            column: record::column(rule.words, i),
        };
    }
    Place {
        line: layout::line(rule.answer),
        column: layout::column(rule.answer),
    }
}

// Have the tokens with an index the same kind and the same number, and words and texts the same bytes? Tokens of other kinds are the same whatever their bytes.
fn is_same(a: Lexed<'_>, b: Lexed<'_>, i: usize) -> bool {
    let kind = record::kind(a.words, i);
    if kind != record::kind(b.words, i)
        || record::number(a.words, i) != record::number(b.words, i)
    {
        return false;
    }
    if kind != kind::WORD && kind != kind::STRING {
        return true;
    }
    text::part::same(
        record::bytes(a.file.bytes, a.words, i),
        record::bytes(b.file.bytes, b.words, i),
    )
}

// The number of the token with an index, counted from 1.
fn ordinal(i: usize) -> u32 {
    text::place::count_up(text::place::held(i))
}

// The file and the place, and which token it is.
fn head(rt: &HostRuntime, rule: Lexed<'_>, i: usize, p: Place) {
    let row = [p.line, p.column, ordinal(i), layout::detail(rule.answer)];
    out::shown(rt, rule.file.name);
    if i < rule.count() {
        say::numbers(rt, &row, b":%n0:%n1: token %n2 of %n3\n");
        return;
    }
    say::numbers(rt, &row, b":%n0:%n1: the end, behind %n3 token%P3\n");
}

// What one of the rules has at the first difference.
fn shown(rt: &HostRuntime, rule: Lexed<'_>, i: usize, p: Place) {
    let text = rule.file.bytes;
    head(rt, rule, i, p);
    source::marked(rt, source::line_of(text, p.line), p.line, p.column);
    stands::at(rt, rule.tokens(), i);
    out::line_end(rt);
}

// The last line of the output, where the rules differ.
fn verdict(rt: &HostRuntime, i: usize, p: Place, q: Place) {
    let row = [ordinal(i), p.line, p.column, q.line, q.column];
    say::numbers(
        rt,
        &row,
        b"different: the first difference is token %n0, at %n1:%n2 in the first file and at %n3:%n4 in the second\n",
    );
}

fn same(rt: &HostRuntime, answer: &[u32]) {
    out::bytes(
        rt,
        b"The two rules differ at most in white space, in comments and in how values are written, as 5s and 5000ms.
With the same sheet and options both are read alike: the same triggers and conditions, or the same refusal at the
corresponding place.
",
    );
    say::numbers(rt, answer, b"same: %n3 token%P3 each\n");
}

// Says how the tokens compare.
fn compared(rt: &HostRuntime, a: Lexed<'_>, b: Lexed<'_>) {
    let least = a.count().min(b.count());
    let different = (0..least).find(|i| !is_same(a, b, *i));
    if different.is_none() && a.count() == b.count() {
        same(rt, a.answer);
        return;
    }
    let i = different.unwrap_or(least);
    let p = place_of(a, i);
    let q = place_of(b, i);
    shown(rt, a, i, p);
    shown(rt, b, i, q);
    verdict(rt, i, p, q);
}

// Cuts both texts into tokens. Of two that are refused the first is shown.
fn answered(rt: &HostRuntime, a: File<'_>, b: File<'_>) {
    let mut a_words = [0u32; tokens::lexer::LEAST_WORDS];
    let mut b_words = [0u32; tokens::lexer::LEAST_WORDS];
    let mut a_answer = [0u32; LEX_ANSWER];
    let mut b_answer = [0u32; LEX_ANSWER];
    if let Some(a) = lexed::cut(rt, a, &mut a_words, &mut a_answer)
        && let Some(b) = lexed::cut(rt, b, &mut b_words, &mut b_answer)
    {
        compared(rt, a, b);
    }
}

// The names of the files are the two words behind the command.
pub fn run(rt: &HostRuntime) {
    let mut a_name = [0u8; NAME];
    let mut b_name = [0u8; NAME];
    let mut a = [0u8; BYTES];
    let mut b = [0u8; BYTES];
    let a_name = files::argument(rt, 2, &mut a_name);
    let b_name = files::argument(rt, 3, &mut b_name);
    if let Some(a) = given::load(rt, a_name, &mut a)
        && let Some(b) = given::load(rt, b_name, &mut b)
    {
        answered(rt, a, b);
    }
}
