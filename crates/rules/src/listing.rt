// `rules tokens RULES`: one line for each token, or one diagnostic.
use crate::given::{self, BYTES, NAME};
use crate::lexed::{self, Lexed};
use crate::reading::LEX_ANSWER;
use tokens::record;
use wording::stands::Token;
use wording::{files, out, say};

// Line, column, kind and what is written; of a duration also its milliseconds.
fn token(rt: &HostRuntime, rule: Lexed<'_>, i: usize) {
    let place = [record::line(rule.words, i), record::column(rule.words, i)];
    say::numbers(rt, &place, b"%n0:%n1 ");
    out::text(rt, Token::of(rule.tokens(), i));
    if record::kind(rule.words, i) == tokens::kind::DURATION {
        say::number(rt, record::number(rule.words, i), b" = %n0 ms\n");
        return;
    }
    out::line_end(rt);
}

// The tokens of a rule.
fn listed(rt: &HostRuntime, rule: Lexed<'_>) {
    for i in 0..rule.count() {
        token(rt, rule, i);
    }
    say::numbers(rt, rule.answer, b"accepted: %n3 token%P3\n");
}

pub fn run(rt: &HostRuntime) {
    let mut name = [0u8; NAME];
    let mut text = [0u8; BYTES];
    let mut words = [0u32; tokens::lexer::LEAST_WORDS];
    let mut answer = [0u32; LEX_ANSWER];
    let name = files::argument(rt, 2, &mut name);
    let Some(file) = given::load(rt, name, &mut text) else {
        return;
    };
    if let Some(rule) = lexed::cut(rt, file, &mut words, &mut answer) {
        listed(rt, rule);
    }
}
