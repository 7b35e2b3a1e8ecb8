// Steps that several forms share.
ghost use Rattle.std.specs.Prelude.{◌≡◌};
ghost use Rattle.tokens.specs.Cursor.{tokens, to_taken};
ghost use Rattle.sheet.specs.View.{view_of};
ghost use Rattle.language.specs.Words.{named_phrase, target_for, property_word, signed};

use model::LightTarget;
use references::refs;
use sheet::View;
use tokens::cursor::{Cursor, Taken, Tokens};
use tokens::kind;

// Q and these words behind it: the index of the name's token.
#[tactic(auto, unfolding(language::specs::Words::named_phrase, tokens::specs::Cursor::to_taken))]
pub fn named_phrase(c: Cursor, t: &Tokens<'_>, list: &[u8]) -> Taken<usize>
    ensures { result ≡ to_taken (named_phrase (tokens t.now.text.now t.now.words.now) list.now c.index) }
{
    let (i, next) = refs::quoted_name(c, t)?;
    let (_, behind) = next.expect_phrase(t, list)?;
    Ok((i, behind))
}

// `for` and TARGET.
#[tactic(auto, unfolding(language::specs::Words::target_for, tokens::specs::Cursor::to_taken))]
pub fn target_for(c: Cursor, t: &Tokens<'_>, view: &View<'_>) -> Taken<LightTarget>
    ensures { result ≡ to_taken (target_for (tokens t.now.text.now t.now.words.now) (view_of view.now.settings view.now.sheet.now) c.index) }
{
    let (_, behind) = c.expect_kw(t, b"for")?;
    refs::light_target(behind, t, view)
}

// A point and any word behind it: the word's index.
#[tactic(auto, unfolding(language::specs::Words::property_word, tokens::specs::Cursor::to_taken))]
pub fn property_word(c: Cursor, t: &Tokens<'_>) -> Taken<usize>
    ensures { result ≡ to_taken (property_word (tokens t.now.text.now t.now.words.now) c.index) }
{
    let (_, next) = c.expect(t, kind::POINT)?;
    let i = next.index;
    let (_, behind) = next.expect(t, kind::WORD)?;
    Ok((i, behind))
}

// A number behind a sign.
pub fn signed_by(minus: bool, n: u32) -> i64
    ensures { result ≡ signed minus n }
{
    let z = n as i64;
    if minus {
        return -z;
    }
    z
}
