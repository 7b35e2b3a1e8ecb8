// What may stand at a place of a rule. The reader itself is asked: the text before the place with a candidate behind it is read anew,
// by the call that refused the rule, and the candidate belongs there unless it is refused itself. No topics are lent for that: they have no part in it,
// and 66 would come before the candidate.
use crate::diagnose::Refusal;
use crate::given::{BYTES, Setting};
use crate::reading::ANSWER;
use sheet::{Habit, profile};
use wording::fault::Fault;
use wording::items::END;
use wording::{items, layout, marks, near, out, source, split, trial};

// Is a candidate, which begins the line `line`, taken by the reader? It is if it is not refused itself, or only for its value (22, 25, 35, 36).
// Refusals below 20 say nothing of it. A 30 says that the candidate needs one instance where there is a group; only `)` just meets it.
fn is_taken(answer: &[u32], line: u32, candidate: &[u8]) -> bool {
    match layout::number(answer) {
        0 => true,
        1..20 => false,
        30 => candidate == b")".as_slice(),
        22 | 25 | 35 | 36 => true,
        _ => { layout::line(answer) != line || candidate.len() < layout::column(answer) as usize }
    }
}

// Puts a candidate behind the text before the place, on a line of its own, so that it joins no word and no comment. A comparison follows it: only
// then does the reader judge a lamp's property in a condition.
fn put(trial: &mut [u8], start: usize, candidate: &[u8]) -> usize {
    let at = trial::byte(trial, start, b'\n');
    let at = trial::bytes(trial, at, candidate);
    trial::bytes(trial, at, b" == 1")
}

// Asks the reader for a candidate. `trial` has the text before the place up to `start`. These stay parameters: a struct of lent buffers was tried, and the proof did not close.
fn belongs(
    setting: Setting<'_>,
    trial: &mut [u8],
    start: usize,
    words: &mut [u32],
    line: u32,
    candidate: &[u8],
) -> bool {
    if candidate.is_empty() {
        return false;
    }
    let mut answer = [0u32; ANSWER];
    let end = put(trial, start, candidate);
    setting.read(text::part::part(trial, 0, end), words, &mut answer);
    is_taken(&answer, line, candidate)
}

// May the text end behind its first bytes?
fn may_end(setting: Setting<'_>, trial: &[u8], start: usize, words: &mut [u32]) -> bool {
    let mut answer = [0u32; ANSWER];
    setting.read(text::part::part(trial, 0, start), words, &mut answer) == 0
}

// Marks the candidates that belong at the place, by their index in the list.
fn mark(
    list: &[u8],
    setting: Setting<'_>,
    trial: &mut [u8],
    start: usize,
    words: &mut [u32],
    line: u32,
    marks: &mut [bool],
) {
    for (k, candidate) in list.split(|b| *b == b' ').enumerate() {
        marks::set(
            marks,
            k,
            belongs(setting, trial, start, words, line, candidate),
        );
    }
}

// The index of a candidate in the list; END where there is none.
fn index_of(list: &[u8], candidate: &[u8]) -> usize {
    list.split(|b| *b == b' ')
        .position(|item| item == candidate)
        .unwrap_or(END)
}

// In the shop's call, unmarks what the profile leaves out, which it refuses only in a whole rule: `broadcast`; `event` where a reading may begin, as with `var`; and
// elsewhere a number in the place of which a name may stand.
fn leave_out(list: &[u8], habit: Habit, marks: &mut [bool]) {
    if profile::any_form(habit) {
        return;
    }
    marks::set(marks, index_of(list, b"broadcast"), false);
    if marks::has(marks, index_of(list, b"var")) {
        marks::set(marks, index_of(list, b"event"), false);
        return;
    }
    if marks::has(marks, index_of(list, b"\"x\"")) {
        marks::set(marks, index_of(list, b"1"), false);
    }
}

// If a word stands there that nearly is one of the marked candidates: that one. The first four are no words.
fn suggestion(rt: &HostRuntime, list: &[u8], marks: &[bool], word: &[u8], line: u32) {
    let near = (4..END).find(|k| marks::has(marks, *k)
        && near::is_near(split::word(list, *k), word));
    if let Some(k) = near {
        source::margin(rt, line, b'=');
        out::bytes(rt, b" help: did you mean ");
        out::backquoted(rt, split::word(list, k));
        out::bytes(rt, b"?\n");
    }
}

// The bytes of the token at the place, which may be a slip; none at the end of the text, none for 40, whose word is no slip, and none for 50, whose help
// says which day is meant.
fn word_at<'a>(f: Fault<'a>) -> &'a [u8] {
    if f.number != 40 && f.number != 50 && !f.is_at_end() {
        return f.bytes();
    }
    &[]
}

// The line that says what may stand at the place, and perhaps one that suggests a word; nothing where the reader could not be asked.
fn lines(rt: &HostRuntime, list: &[u8], marks: &[bool], word: &[u8], line: u32) {
    if marks::count(marks) == 0 {
        return;
    }
    source::margin(rt, line, b'=');
    out::bytes(rt, b" expected: ");
    items::words(rt, list, marks);
    out::line_end(rt);
    suggestion(rt, list, marks, word, line);
}

// Asks the reader for each candidate and for the end of the text.
pub fn show(rt: &HostRuntime, r: Refusal<'_>) {
    let list =
        b"\"x\" 1 12:00 1s when if and timer rule controller http mqtt every at scene device group hcl lamp input last_fired mon tue wed thu fri sat sun time day var event sunrise sunset fires fails starts becomes active trigger recalled goes offline comes online any_on all_off override clears for broadcast turns on off crosses above below power cycled manual config changed changes is press release short_press double_press long_press_start long_press_repeat long_press_stop button_free button_stuck movement no_movement any_event occupied vacant running enabled overridden older than up down in level cct is_on last_level member_count light position last_event_age now hour minute weekday rise set is_up value instance option button absolute occupancy dev= inst= group= type= adapter= data= ( ) , . .. = == != >= <= > < + -";
    let mut trial = [0u8; BYTES];
    let mut words = [0u32; tokens::lexer::LEAST_WORDS];
    let mut marks = [false; END + 1];
    let f = r.fault;
    let start = trial::bytes(&mut trial, 0, text::part::part(r.rule.bytes, 0, f.at));
    let alone = Setting {
        topics: b"",
        ..r.setting
    };
    let line = text::place::count_up(f.line);
    mark(list, alone, &mut trial, start, &mut words, line, &mut marks);
    leave_out(list, r.setting.call.habit, &mut marks);
    let is_in = may_end(alone, &trial, start, &mut words);
    marks::set(&mut marks, END, is_in);
    lines(rt, list, &marks, word_at(f), f.line);
}
