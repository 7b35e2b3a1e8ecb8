// Some ranges of one byte slice, where topics stand: nothing is copied.
ghost use Rattle.std.specs.Prelude.{◌≡◌, ◌++◌, ◌≤◌, ◌+◌};
ghost use Rattle.topics.specs.Topics.{most_topics, has, different};
ghost use Rattle.topics.specs.Ranges.{no_ranges, with_range, ranges_of, with_name, with_topic, in_use, first_in, topics_in};

use model::Name;
use text::part;

// As many different topics as may stand, and no more have to be kept.
pub const MAX_TOPICS: usize = 8;

// The bytes from an offset up to another. It is copied, which the library's Range is not.
#[derive(Clone, Copy)]
pub struct Range {
    pub start: usize,
    pub end: usize,
}

// The first count ranges are in use. An array with a count beside it: the reader puts nothing on the heap.
#[derive(Clone, Copy)]
pub struct Ranges {
    pub rows: [Range; MAX_TOPICS],
    pub count: usize,
}

#[tactic(auto, unfolding(crate::specs::Ranges::no_ranges))]
pub fn no_ranges() -> Ranges
    ensures { result ≡ no_ranges }
{
    Ranges {
        rows: [Range { start: 0, end: 0 }; MAX_TOPICS],
        count: 0,
    }
}

// One range more. Full ones stay as they are.
#[tactic(auto, unfolding(crate::specs::Ranges::with_range))]
pub fn with_range(ranges: Ranges, start: usize, end: usize) -> Ranges
    ensures { result ≡ with_range ranges start end }
{
    let at = ranges.count;
    if MAX_TOPICS <= at {
        return ranges;
    }
    let mut more = ranges;
    more.rows[at] = Range { start, end };
    more.count = at + 1;
    more
}

// One name more of the rule text.
#[tactic(auto, unfolding(crate::specs::Ranges::with_name))]
pub fn with_name(ranges: Ranges, name: Name) -> Ranges
    ensures { result ≡ with_name ranges name }
{
    let start = name.start as usize;
    let end = start + name.length as usize;
    with_range(ranges, start, end)
}

// The ranges that words give, a start and a length for each.
pub fn ranges_of(words: &[u32]) -> Ranges
    ensures { result ≡ ranges_of words.now }
{
    let mut ranges = no_ranges();
    let mut rest = words;
    while let [start, length, others @ ..] = rest {
        ranges = with_name(
            ranges,
            Name {
                start: *start,
                length: *length,
            },
        );
        rest = others;
    }
    ranges
}

// The ranges with that of the topic that a trigger names, if it names one.
#[tactic(auto, unfolding(crate::specs::Ranges::with_topic))]
pub fn with_topic(ranges: Ranges, topic: Option<Name>) -> Ranges
    ensures { result ≡ with_topic ranges topic }
{
    match topic {
        None => ranges,
        Some(name) => with_name(ranges, name),
    }
}

// How many ranges are in use.
#[tactic(auto, unfolding(crate::specs::Ranges::in_use))]
fn used(ranges: Ranges) -> usize
    ensures value { result ≡ in_use ranges }
    ensures upper_bound { result ≤ most_topics }
{
    ranges.count.min(MAX_TOPICS)
}

// Does the topic stand in one of the first n ranges?
fn among_first(s: &[u8], ranges: Ranges, n: usize, topic: &[u8]) -> bool
    requires { n ≤ most_topics }
    ensures { result ≡ has topic.now (first_in s.now ranges n) }
{
    for i in 0..n {
        let range = ranges.rows[i];
        if part::same(part::part(s, range.start, range.end), topic) {
            return true;
        }
    }
    false
}

// Does the topic stand in one of the ranges?
#[tactic(auto, unfolding(crate::specs::Ranges::topics_in))]
pub fn holds(s: &[u8], ranges: Ranges, topic: &[u8]) -> bool
    ensures { result ≡ has topic.now (topics_in s.now ranges) }
{
    among_first(s, ranges, used(ranges), topic)
}

// Does the topic stand in one of the first n ranges of s, or in one of those of t?
#[tactic(auto, using(crate::proofs::DifferentLaws::has_append))]
fn holds_first(s: &[u8], ranges: Ranges, n: usize, t: &[u8], others: Ranges, topic: &[u8]) -> bool
    requires { n ≤ most_topics }
    ensures { result ≡ has topic.now (first_in s.now ranges n ++ topics_in t.now others) }
{
    among_first(s, ranges, n, topic) || holds(t, others, topic)
}

// Does the topic stand in one of the ranges of s, or in one of those of t?
#[tactic(auto, unfolding(crate::specs::Ranges::topics_in))]
pub fn holds_in_both(s: &[u8], ranges: Ranges, t: &[u8], others: Ranges, topic: &[u8]) -> bool
    ensures { result ≡ has topic.now (topics_in s.now ranges ++ topics_in t.now others) }
{
    holds_first(s, ranges, used(ranges), t, others, topic)
}

// How many different topics stand in the ranges of s and in those of t, of which `before` are in t.
fn different_beside(s: &[u8], ranges: Ranges, t: &[u8], others: Ranges, before: usize) -> usize
    requires { (before ≡ different (topics_in t.now others)) × (before ≤ most_topics) }
    ensures value { result ≡ different (topics_in s.now ranges ++ topics_in t.now others) }
    ensures upper_bound { result ≤ before + most_topics }
{
    let n = used(ranges);
    let mut count = before;
    for i in 0..n {
        let range = ranges.rows[i];
        let topic = part::part(s, range.start, range.end);
        if !holds_first(s, ranges, i, t, others, topic) {
            count += 1;
        }
    }
    count
}

// How many different topics stand in the ranges of s and in those of t.
pub fn different_in_both(s: &[u8], ranges: Ranges, t: &[u8], others: Ranges) -> usize
    ensures { result ≡ different (topics_in s.now ranges ++ topics_in t.now others) }
{
    let before = different_beside(t, others, t, no_ranges(), 0);
    different_beside(s, ranges, t, others, before)
}
