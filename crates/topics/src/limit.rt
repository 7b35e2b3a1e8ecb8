// Whether one topic more is one too many. Lent bytes may be of any length and content: nothing of them is copied, at most eight of their
// lines are kept, as ranges, and each line is compared with the topic, the named ones and the kept ones alone. The topics of an earlier rule that is read with
// this one stand in its own text, first, and count as lent ones do.
ghost use Rattle.std.specs.Prelude.{◌≡◌, ◌++◌, leb};
ghost use Rattle.topics.specs.Topics.{lent_topics, has, different, most_topics, too_many, fits};
ghost use Rattle.topics.specs.Ranges.{name_in, topic_by, topics_in, lent_with};
ghost use Rattle.topics.specs.Kept.{kept};

use crate::ranges;
use crate::ranges::Ranges;
use model::Name;
use text::{find, part};

// Is this topic lent?
fn is_lent(lent: &[u8], topic: &[u8]) -> bool
    ensures { result ≡ has topic.now (lent_topics lent.now) }
{
    if topic.is_empty() {
        return false;
    }
    // Each line begins behind the LF that ends the one before it: no step is the same, so no `for` counts them.
    let mut at: usize = 0;
    while at < lent.len() {
        let end = find::find(lent, at, b'\n');
        if part::same(part::part(lent, at, end), topic) {
            return true;
        }
        at = end + 1;
    }
    false
}

// The lent lines that are kept, with the line from at to end if it is neither empty nor one of them or of the earlier or named ones.
#[tactic(auto, unfolding(crate::specs::Kept::kept))]
fn keep(
    lent: &[u8],
    lines: Ranges,
    first: &[u8],
    earlier: Ranges,
    text: &[u8],
    named: Ranges,
    at: usize,
    end: usize,
) -> Ranges
    ensures { result ≡ kept lent.now lines (topics_in first.now earlier ++ topics_in text.now named) at end }
{
    let line = part::part(lent, at, end);
    if line.is_empty()
        || ranges::holds_in_both(first, earlier, text, named, line)
        || ranges::holds(lent, lines, line)
    {
        return lines;
    }
    ranges::with_range(lines, at, end)
}

// Are the lent ones, the earlier ones and the named ones eight different ones or more?
fn eight_stand(lent: &[u8], first: &[u8], earlier: Ranges, text: &[u8], named: Ranges) -> bool
    ensures { result ≡ leb most_topics (different (lent_topics lent.now ++ (topics_in first.now earlier ++ topics_in text.now named))) }
{
    let count = ranges::different_in_both(first, earlier, text, named);
    if ranges::MAX_TOPICS < count {
        return true;
    }
    let mut lines = ranges::no_ranges();
    // From line to line, as in is_lent.
    let mut at: usize = 0;
    while at < lent.len() {
        if ranges::MAX_TOPICS - count <= lines.count {
            return true;
        }
        let end = find::find(lent, at, b'\n');
        lines = keep(lent, lines, first, earlier, text, named, at, end);
        at = end + 1;
    }
    ranges::MAX_TOPICS - count <= lines.count
}

// Is this topic of the text one too many, after the earlier ones and those that the text named before?
#[tactic(auto, using(crate::proofs::AllowedLaws::too_many_lent), unfolding(crate::specs::Topics::too_many))]
pub fn too_many(
    lent: &[u8],
    first: &[u8],
    earlier: Ranges,
    text: &[u8],
    named: Ranges,
    topic: &[u8],
) -> bool
    ensures { result ≡ too_many (lent_topics lent.now ++ topics_in first.now earlier) (topics_in text.now named) topic.now }
{
    if is_lent(lent, topic) {
        return false;
    }
    !ranges::holds_in_both(first, earlier, text, named, topic)
        && eight_stand(lent, first, earlier, text, named)
}

// Does this topic, if there is one, fit behind the lent ones, those of the earlier rule and those that the text named before? The earlier ones stand in the first text
// where the words say, a start and a length for each.
#[tactic(auto, unfolding(crate::specs::Topics::fits, crate::specs::Ranges::topic_by, crate::specs::Ranges::name_in, crate::specs::Ranges::topics_at))]
pub fn fits_behind(
    lent: &[u8],
    first: &[u8],
    earlier: &[u32],
    text: &[u8],
    named: Ranges,
    topic: Option<Name>,
) -> bool
    ensures { result ≡ fits (lent_with lent.now first.now earlier.now) (topics_in text.now named) (topic_by (name_in text.now) topic) }
{
    match topic {
        None => true,
        Some(name) => {
            let start = name.start as usize;
            let end = start + name.length as usize;
            let others = ranges::ranges_of(earlier);
            !too_many(
                lent,
                first,
                others,
                text,
                named,
                part::part(text, start, end),
            )
        }
    }
}
