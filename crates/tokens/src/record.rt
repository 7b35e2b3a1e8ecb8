// Token records: five words each in the lent words. In the code only this file knows their order; others ask by its functions and go
// from record to record by RECORD_SIZE. specs/Record.antt has the same order, and include/tergyosul.h has it for callers.
ghost use Rattle.std.specs.Prelude.{◌≡◌, ◌<◌};
ghost use Rattle.tokens.specs.Record.{record_size, capacity, half_word, place_word, written, word_at, kind_at, number_at, start_at, length_at, line_at, column_at, bytes_at};

#[derive(Clone, Copy)]
pub struct Record {
    pub kind: u32,
    pub number: u32,
    pub start: u32,
    pub length: u32,
    pub line: u32,
    pub column: u32,
}

// How many words a record has.
pub const RECORD_SIZE: usize = 5;

// The unit of the line in the word of a place; the column stands below it.
const PLACE_UNIT: u32 = 65536;

// How many whole records the words hold.
#[tactic(auto, unfolding(crate::specs::Record::capacity))]
pub fn count(words: &[u32]) -> usize
    ensures { result ≡ capacity words.now }
{
    words.len() / RECORD_SIZE
}

// A line or a column as far as half a word holds it.
#[tactic(auto, unfolding(crate::specs::Record::half_word))]
fn half_word(n: u32) -> u32
    ensures { result ≡ half_word n }
{
    if n < PLACE_UNIT { n } else { PLACE_UNIT - 1 }
}

// Line and column in one word.
#[tactic(auto, unfolding(crate::specs::Record::place_word))]
fn place_word(line: u32, column: u32) -> u32
    ensures { result ≡ place_word line column }
{
    let high = half_word(line);
    let low = half_word(column);
    high * PLACE_UNIT + low
}

// Writes a record at an index. Where there is no room for it nothing is written.
pub fn put(words: &mut [u32], i: usize, r: Record)
    ensures { words.new ≡ written words.old i r }
{
    if words.len() / RECORD_SIZE <= i {
        return;
    }
    let at = i * RECORD_SIZE;
    let place = place_word(r.line, r.column);
    words[at] = r.kind;
    words[at + 1] = r.number;
    words[at + 2] = r.start;
    words[at + 3] = r.length;
    words[at + 4] = place;
}

// Word k of the record at an index; 0 where there is no record.
#[tactic(auto, unfolding(crate::specs::Record::word_at, crate::specs::Record::capacity))]
fn word(words: &[u32], i: usize, k: usize) -> u32
    requires { k < record_size }
    ensures { result ≡ word_at words.now i k }
{
    if words.len() / RECORD_SIZE <= i {
        return 0;
    }
    let at = i * RECORD_SIZE;
    words[at + k]
}

#[tactic(auto, unfolding(crate::specs::Record::kind_at))]
pub fn kind(words: &[u32], i: usize) -> u32
    ensures { result ≡ kind_at words.now i }
{
    word(words, i, 0)
}

#[tactic(auto, unfolding(crate::specs::Record::number_at))]
pub fn number(words: &[u32], i: usize) -> u32
    ensures { result ≡ number_at words.now i }
{
    word(words, i, 1)
}

#[tactic(auto, unfolding(crate::specs::Record::start_at))]
pub fn start(words: &[u32], i: usize) -> u32
    ensures { result ≡ start_at words.now i }
{
    word(words, i, 2)
}

#[tactic(auto, unfolding(crate::specs::Record::length_at))]
pub fn length(words: &[u32], i: usize) -> u32
    ensures { result ≡ length_at words.now i }
{
    word(words, i, 3)
}

#[tactic(auto, unfolding(crate::specs::Record::line_at))]
pub fn line(words: &[u32], i: usize) -> u32
    ensures { result ≡ line_at words.now i }
{
    word(words, i, 4) / PLACE_UNIT
}

#[tactic(auto, unfolding(crate::specs::Record::column_at))]
pub fn column(words: &[u32], i: usize) -> u32
    ensures { result ≡ column_at words.now i }
{
    word(words, i, 4) % PLACE_UNIT
}

// The part of the text that a token's record names: of a string, what stands between its quotes.
#[tactic(auto, unfolding(crate::specs::Record::bytes_at))]
pub fn bytes<'a, 'b>(text: &'a [u8], words: &'b [u32], i: usize) -> &'a [u8]
    ensures { result.now ≡ bytes_at text.now words.now i }
{
    let from = start(words, i) as usize;
    let size = length(words, i) as usize;
    text::part::part(text, from, from + size)
}
