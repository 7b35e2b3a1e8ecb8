// What a topic may be.
ghost use Rattle.std.specs.Prelude.{◌≡◌};
ghost use Rattle.topics.specs.Topic.{is_forbidden, forbidden, topic_number};

use model::limits;
use text::utf8::Decoded;
use text::{category, utf8};

// May this character not stand in a topic?
#[tactic(auto, unfolding(crate::specs::Topic::is_forbidden))]
fn is_forbidden(code: u32) -> bool
    ensures { result ≡ is_forbidden code }
{
    code == 0x2B || code == 0x23 || category::is_control(code) || category::is_noncharacter(code)
}

// Has a topic such a character?
fn has_forbidden(topic: &[u8]) -> bool
    ensures { result ≡ forbidden topic.now }
{
    let mut at: usize = 0;
    while let Decoded::Char { code, next } = utf8::decode(topic, at) {
        if is_forbidden(code) {
            return true;
        }
        at = next;
    }
    false
}

// The number that refuses a topic by itself: 64, 65, or 0 for none.
#[tactic(auto, unfolding(crate::specs::Topic::topic_number))]
pub fn topic_number(topic: &[u8]) -> u32
    ensures { result ≡ topic_number topic.now }
{
    if topic.is_empty() || has_forbidden(topic) {
        return 64;
    }
    if limits::MAX_NAME_BYTES < topic.len() {
        return 65;
    }
    0
}
