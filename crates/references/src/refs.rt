// References, ported from refs.rs: R, DEV, TARGET and Q.
ghost use Rattle.std.specs.Prelude.{◌≡◌};
ghost use Rattle.tokens.specs.Cursor.{tokens, to_taken};
ghost use Rattle.model.specs.Limits.{last_short_address, last_group};
ghost use Rattle.sheet.specs.View.{view_of};
ghost use Rattle.references.specs.Refs.{checked_name, closed_name, quoted_name, name_or_id, adapter_number, adapter_assign, adapter_clause, scope_or_primary, found_at, referred, close_r, open_r, reference, lamp_ref, group_ref, device_ref, dev_name, input_device_ref, lamp_target, group_target, broadcast_target, light_target};

use model::{LightTarget, Ref, limits};
use sheet::resolve::{Scope, Unfound};
use sheet::{View, kind, profile};
use tokens::cursor::{Cursor, Refusal, Taken, Tokens};

// A name, by its token's index, or an id and its token's index.
#[derive(Clone, Copy)]
pub enum NameOrId {
    Name(usize),
    Id(u32, usize),
}

// A quoted name of 1 to 48 bytes.
#[tactic(auto, unfolding(crate::specs::Refs::checked_name, tokens::specs::Cursor::tokens, tokens::specs::Cursor::to_taken))]
pub fn checked_name(c: Cursor, t: &Tokens<'_>) -> Taken<u32>
    ensures { result ≡ to_taken (checked_name (tokens t.now.text.now t.now.words.now) c.index) }
{
    let i = c.index;
    let (n, next) = c.expect_string(t)?;
    let name = t.bytes(i);
    if name.len() == 0 {
        return Err(tokens::cursor::refuse(23, i));
    }
    if limits::MAX_NAME_BYTES < name.len() {
        return Err(tokens::cursor::refuse(24, i));
    }
    Ok((n, next))
}

#[tactic(auto, unfolding(crate::specs::Refs::closed_name, tokens::specs::Cursor::to_taken))]
fn closed_name(c: Cursor, t: &Tokens<'_>) -> Taken<usize>
    ensures { result ≡ to_taken (closed_name (tokens t.now.text.now t.now.words.now) c.index) }
{
    let i = c.index;
    let (_, next) = checked_name(c, t)?;
    let (_, behind) = next.expect(t, tokens::kind::CLOSE)?;
    Ok((i, behind))
}

// Q: a quoted name in parentheses, which is not looked up.
#[tactic(auto, unfolding(crate::specs::Refs::quoted_name, tokens::specs::Cursor::to_taken))]
pub fn quoted_name(c: Cursor, t: &Tokens<'_>) -> Taken<usize>
    ensures { result ≡ to_taken (quoted_name (tokens t.now.text.now t.now.words.now) c.index) }
{
    let (_, next) = c.expect(t, tokens::kind::OPEN)?;
    closed_name(next, t)
}

// A name, or an id where one may stand; else 57.
#[tactic(auto, unfolding(crate::specs::Refs::name_or_id, sheet::specs::View::view_of, tokens::specs::Cursor::to_taken))]
pub fn name_or_id(c: Cursor, t: &Tokens<'_>, view: &View<'_>) -> Taken<NameOrId>
    ensures { result ≡ to_taken (name_or_id (tokens t.now.text.now t.now.words.now) (view_of view.now.settings view.now.sheet.now) c.index) }
{
    let i = c.index;
    if c.peek_is(t, tokens::kind::STRING) {
        let (_, next) = checked_name(c, t)?;
        return Ok((NameOrId::Name(i), next));
    }
    let (n, next) = c.expect_int(t)?;
    if profile::any_form(view.settings.habit) {
        return Ok((NameOrId::Id(n, i), next));
    }
    Err(tokens::cursor::refuse(57, i))
}

// The number of a listed adapter.
#[tactic(auto, unfolding(crate::specs::Refs::adapter_number, tokens::specs::Cursor::to_taken))]
pub fn adapter_number(c: Cursor, t: &Tokens<'_>, view: &View<'_>) -> Taken<u32>
    ensures { result ≡ to_taken (adapter_number (tokens t.now.text.now t.now.words.now) (view_of view.now.settings view.now.sheet.now) c.index) }
{
    let i = c.index;
    let (a, next) = c.expect_int_in(t, 0, limits::MAX_ADAPTER)?;
    if view.adapter_exists(a) {
        return Ok((a, next));
    }
    Err(tokens::cursor::refuse(25, i))
}

// `adapter = A`.
#[tactic(auto, unfolding(crate::specs::Refs::adapter_assign, tokens::specs::Cursor::to_taken))]
fn adapter_assign(c: Cursor, t: &Tokens<'_>, view: &View<'_>) -> Taken<u32>
    ensures { result ≡ to_taken (adapter_assign (tokens t.now.text.now t.now.words.now) (view_of view.now.settings view.now.sheet.now) c.index) }
{
    let (_, next) = c.expect_kw(t, b"adapter")?;
    let (_, behind) = next.expect(t, tokens::kind::ASSIGN)?;
    adapter_number(behind, t, view)
}

// Perhaps `, adapter = A`.
#[tactic(auto, unfolding(crate::specs::Refs::adapter_clause, tokens::specs::Cursor::to_taken, tokens::specs::Cursor::accepted))]
pub fn adapter_clause(c: Cursor, t: &Tokens<'_>, view: &View<'_>) -> Taken<Scope>
    ensures { result ≡ to_taken (adapter_clause (tokens t.now.text.now t.now.words.now) (view_of view.now.settings view.now.sheet.now) c.index) }
{
    let Some(next) = c.accept(t, tokens::kind::COMMA) else {
        return Ok((Scope::Any, c));
    };
    let (a, behind) = adapter_assign(next, t, view)?;
    Ok((Scope::On(a), behind))
}

// The adapter of an id: the one in its parentheses, or the primary.
#[tactic(auto, unfolding(crate::specs::Refs::scope_or_primary, sheet::specs::View::view_of))]
pub fn scope_or_primary(view: &View<'_>, scope: Scope) -> u32
    ensures { result ≡ scope_or_primary (view_of view.now.settings view.now.sheet.now) scope }
{
    match scope {
        Scope::Any => view.settings.primary,
        Scope::On(a) => a,
    }
}

// A row that was found for the name at the token i, or the refusal there; next is the cursor behind the reference.
#[tactic(auto, unfolding(crate::specs::Refs::found_at, tokens::specs::Cursor::to_taken))]
fn found_at(i: usize, next: Cursor, found: Result<Ref, Unfound>) -> Taken<Ref>
    ensures { result ≡ to_taken (found_at i next.index found) }
{
    match found {
        Ok(r) => Ok((r, next)),
        Err(e) => Err(Refusal {
            number: e.number,
            token: i,
            detail: e.detail,
        }),
    }
}

// What a name or an id of a kind refers to; most is the highest number of the kind.
#[tactic(auto, unfolding(crate::specs::Refs::referred, tokens::specs::Cursor::tokens, tokens::specs::Cursor::to_taken))]
pub fn referred_to(
    next: Cursor,
    t: &Tokens<'_>,
    view: &View<'_>,
    kind: u32,
    most: u32,
    scope: Scope,
    target: NameOrId,
) -> Taken<Ref>
    ensures { result ≡ to_taken (referred (tokens t.now.text.now t.now.words.now) (view_of view.now.settings view.now.sheet.now) kind most scope next.index target) }
{
    match target {
        NameOrId::Name(i) => {
            let name = t.bytes(i);
            found_at(i, next, view.pick_named(kind, name, scope))
        }
        NameOrId::Id(n, i) => {
            if n <= most {
                return Ok((Ref::new(scope_or_primary(view, scope), n), next));
            }
            Err(tokens::cursor::refuse(22, i))
        }
    }
}

// The rest of R behind its name or id.
#[tactic(auto, unfolding(crate::specs::Refs::close_r, tokens::specs::Cursor::to_taken))]
fn close_reference(
    c: Cursor,
    t: &Tokens<'_>,
    view: &View<'_>,
    kind: u32,
    most: u32,
    target: NameOrId,
) -> Taken<Ref>
    ensures { result ≡ to_taken (close_r (tokens t.now.text.now t.now.words.now) (view_of view.now.settings view.now.sheet.now) kind most target c.index) }
{
    let (scope, next) = adapter_clause(c, t, view)?;
    let (_, behind) = next.expect(t, tokens::kind::CLOSE)?;
    referred_to(behind, t, view, kind, most, scope, target)
}

// R behind its parenthesis.
#[tactic(auto, unfolding(crate::specs::Refs::open_r, tokens::specs::Cursor::to_taken))]
fn open_reference(c: Cursor, t: &Tokens<'_>, view: &View<'_>, kind: u32, most: u32) -> Taken<Ref>
    ensures { result ≡ to_taken (open_r (tokens t.now.text.now t.now.words.now) (view_of view.now.settings view.now.sheet.now) kind most c.index) }
{
    let (name, next) = name_or_id(c, t, view)?;
    close_reference(next, t, view, kind, most, name)
}

#[tactic(auto, unfolding(crate::specs::Refs::reference, tokens::specs::Cursor::to_taken))]
fn reference_of(c: Cursor, t: &Tokens<'_>, view: &View<'_>, kind: u32, most: u32) -> Taken<Ref>
    ensures { result ≡ to_taken (reference (tokens t.now.text.now t.now.words.now) (view_of view.now.settings view.now.sheet.now) kind most c.index) }
{
    let (_, next) = c.expect(t, tokens::kind::OPEN)?;
    open_reference(next, t, view, kind, most)
}

#[tactic(auto, unfolding(crate::specs::Refs::lamp_ref, model::specs::Limits::last_short_address, tokens::specs::Cursor::to_taken))]
pub fn lamp_ref(c: Cursor, t: &Tokens<'_>, view: &View<'_>) -> Taken<Ref>
    ensures { result ≡ to_taken (lamp_ref (tokens t.now.text.now t.now.words.now) (view_of view.now.settings view.now.sheet.now) c.index) }
{
    reference_of(c, t, view, kind::LAMP, Ref::MAX_LAMP)
}

#[tactic(auto, unfolding(crate::specs::Refs::group_ref, model::specs::Limits::last_group, tokens::specs::Cursor::to_taken))]
pub fn group_ref(c: Cursor, t: &Tokens<'_>, view: &View<'_>) -> Taken<Ref>
    ensures { result ≡ to_taken (group_ref (tokens t.now.text.now t.now.words.now) (view_of view.now.settings view.now.sheet.now) c.index) }
{
    reference_of(c, t, view, kind::GROUP, Ref::MAX_GROUP)
}

#[tactic(auto, unfolding(crate::specs::Refs::device_ref, model::specs::Limits::last_short_address, tokens::specs::Cursor::to_taken))]
pub fn device_ref(c: Cursor, t: &Tokens<'_>, view: &View<'_>) -> Taken<Ref>
    ensures { result ≡ to_taken (device_ref (tokens t.now.text.now t.now.words.now) (view_of view.now.settings view.now.sheet.now) c.index) }
{
    reference_of(c, t, view, kind::DEVICE, Ref::MAX_DEVICE)
}

// Perhaps `dev =`.
#[tactic(auto, unfolding(crate::specs::Refs::dev_name, tokens::specs::Cursor::to_taken, tokens::specs::Cursor::accepted))]
fn dev_name(c: Cursor, t: &Tokens<'_>) -> Taken<u32>
    ensures { result ≡ to_taken (dev_name (tokens t.now.text.now t.now.words.now) c.index) }
{
    let Some(next) = c.accept_kw(t, b"dev") else {
        return Ok((0, c));
    };
    next.expect(t, tokens::kind::ASSIGN)
}

#[tactic(auto, unfolding(crate::specs::Refs::input_device_ref, model::specs::Limits::last_short_address, tokens::specs::Cursor::to_taken))]
pub fn input_device_ref(c: Cursor, t: &Tokens<'_>, view: &View<'_>) -> Taken<Ref>
    ensures { result ≡ to_taken (input_device_ref (tokens t.now.text.now t.now.words.now) (view_of view.now.settings view.now.sheet.now) c.index) }
{
    let (_, next) = c.expect(t, tokens::kind::OPEN)?;
    let (_, behind) = dev_name(next, t)?;
    open_reference(behind, t, view, kind::INPUT, Ref::MAX_INPUT)
}

#[tactic(auto, unfolding(crate::specs::Refs::lamp_target, tokens::specs::Cursor::to_taken))]
fn lamp_target(c: Cursor, t: &Tokens<'_>, view: &View<'_>) -> Taken<LightTarget>
    ensures { result ≡ to_taken (lamp_target (tokens t.now.text.now t.now.words.now) (view_of view.now.settings view.now.sheet.now) c.index) }
{
    let (r, next) = lamp_ref(c, t, view)?;
    Ok((LightTarget::Lamp(r), next))
}

#[tactic(auto, unfolding(crate::specs::Refs::group_target, tokens::specs::Cursor::to_taken))]
fn group_target(c: Cursor, t: &Tokens<'_>, view: &View<'_>) -> Taken<LightTarget>
    ensures { result ≡ to_taken (group_target (tokens t.now.text.now t.now.words.now) (view_of view.now.settings view.now.sheet.now) c.index) }
{
    let (r, next) = group_ref(c, t, view)?;
    Ok((LightTarget::Group(r), next))
}

// Broadcast, where its word may stand; else 58.
#[tactic(auto, unfolding(crate::specs::Refs::broadcast_target, sheet::specs::View::view_of, tokens::specs::Cursor::to_taken))]
fn broadcast_target(word: usize, next: Cursor, view: &View<'_>) -> Taken<LightTarget>
    ensures { result ≡ to_taken (broadcast_target (view_of view.now.settings view.now.sheet.now) word next.index) }
{
    if profile::any_form(view.settings.habit) {
        return Ok((LightTarget::Broadcast(view.settings.primary), next));
    }
    Err(tokens::cursor::refuse(58, word))
}

// TARGET: lamp R, group R or broadcast.
#[tactic(auto, unfolding(crate::specs::Refs::light_target, tokens::specs::Cursor::to_taken, tokens::specs::Cursor::accepted))]
pub fn light_target(c: Cursor, t: &Tokens<'_>, view: &View<'_>) -> Taken<LightTarget>
    ensures { result ≡ to_taken (light_target (tokens t.now.text.now t.now.words.now) (view_of view.now.settings view.now.sheet.now) c.index) }
{
    let i = c.index;
    if let Some(next) = c.accept_kw(t, b"lamp") {
        return lamp_target(next, t, view);
    }
    if let Some(next) = c.accept_kw(t, b"group") {
        return group_target(next, t, view);
    }
    if let Some(next) = c.accept_kw(t, b"broadcast") {
        return broadcast_target(i, next, view);
    }
    Err(tokens::cursor::refuse(20, i))
}
