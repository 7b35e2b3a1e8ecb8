// ARGS, ported from refs.rs: the arguments of `input(`, in any order; a repeated one is refused, or in the archive call takes the place of the earlier.
ghost use Rattle.std.specs.Prelude.{◌≡◌};
ghost use Rattle.tokens.specs.Cursor.{tokens, to_taken};
ghost use Rattle.tokens.specs.Record.{capacity};
ghost use Rattle.sheet.specs.View.{may_repeat, view_of};
ghost use Rattle.references.specs.Args.{slot_of, is_named, key_slot, named_slot, unnamed_slot, slot_at, type_word, input_type_value, device_item, instance_item, group_item, type_item, adapter_item, item_at, put, arg_at, count_with, args_from, no_args, device_instance, with_inst, with_dev, is_dev, is_number, is_group, is_on, is_set, is_repeat, selected, close_args, input_selector, one_instance, input_ref};

use crate::refs;
use crate::refs::NameOrId;
use model::{InputRef, Ref, Selector, limits};
use sheet::resolve::Scope;
use sheet::{Habit, View, kind};
use tokens::cursor::{Cursor, Taken, Tokens};

// The arguments by number: the definitions and the grammar (`Last` and `Without` in specs/Grammar.antt) go by these.
pub const NO_SLOT: u32 = 0;

pub const DEV_SLOT: u32 = 1;

pub const INST_SLOT: u32 = 2;

pub const GROUP_SLOT: u32 = 3;

pub const TYPE_SLOT: u32 = 4;

pub const ADAPTER_SLOT: u32 = 5;

// The instance types that have a word (IEC 62386-301 to -304), by the number that the standard and a reading have; none for any other word.
pub const NO_TYPE: u32 = 0;

pub const PUSH_BUTTON: u32 = 1;

pub const ABSOLUTE_INPUT: u32 = 2;

pub const OCCUPANCY_SENSOR: u32 = 3;

pub const LIGHT_SENSOR: u32 = 4;

// One argument.
#[derive(Clone, Copy)]
pub enum Item {
    Device(NameOrId),
    Instance(u32),
    Group(u32, usize),
    Type(u32),
    Adapter(u32),
}

// The arguments so far: the last of each.
#[derive(Clone, Copy)]
pub struct Args {
    pub dev: Option<NameOrId>,
    pub inst: Option<u32>,
    // with the index of its token
    pub group: Option<(u32, usize)>,
    // the type
    pub kind: Option<u32>,
    pub scope: Scope,
}

// Which argument the key names.
fn slot_of(w: &[u8]) -> u32
    ensures { result ≡ slot_of w.now }
{
    if text::part::same(w, b"dev") {
        return DEV_SLOT;
    }
    if text::part::same(w, b"inst") {
        return INST_SLOT;
    }
    if text::part::same(w, b"group") {
        return GROUP_SLOT;
    }
    if text::part::same(w, b"type") {
        return TYPE_SLOT;
    }
    if text::part::same(w, b"adapter") {
        return ADAPTER_SLOT;
    }
    NO_SLOT
}

// A word and `=`?
#[tactic(auto, unfolding(crate::specs::Args::is_named, tokens::specs::Cursor::accepted))]
fn is_named(c: Cursor, t: &Tokens<'_>) -> bool
    ensures { result ≡ is_named (tokens t.now.text.now t.now.words.now) c.index }
{
    let Some(next) = c.accept(t, tokens::kind::WORD) else {
        return false;
    };
    next.peek_is(t, tokens::kind::ASSIGN)
}

// The slot of a named argument; the cursor stands behind `=`.
#[tactic(auto, unfolding(crate::specs::Args::named_slot, tokens::specs::Cursor::to_taken))]
fn named_slot(c: Cursor, t: &Tokens<'_>) -> Taken<u32>
    ensures { result ≡ to_taken (named_slot (tokens t.now.text.now t.now.words.now) c.index) }
{
    let i = c.index;
    let (_, next) = c.expect(t, tokens::kind::WORD)?;
    let (_, behind) = next.expect(t, tokens::kind::ASSIGN)?;
    key_slot(i, t, behind)
}

// The slot that the key at the token i names, or 21 there.
#[tactic(auto, unfolding(crate::specs::Args::key_slot, tokens::specs::Cursor::tokens, tokens::specs::Cursor::to_taken))]
fn key_slot(i: usize, t: &Tokens<'_>, behind: Cursor) -> Taken<u32>
    ensures { result ≡ to_taken (key_slot (tokens t.now.text.now t.now.words.now) i behind.index) }
{
    let slot = slot_of(t.bytes(i));
    if slot == NO_SLOT {
        return Err(tokens::cursor::refuse(21, i));
    }
    Ok((slot, behind))
}

// The slot of an unnamed argument behind count others; a third is refused with 26.
#[tactic(auto, unfolding(crate::specs::Args::unnamed_slot, tokens::specs::Cursor::to_taken))]
fn unnamed_slot(c: Cursor, count: u32) -> Taken<u32>
    ensures { result ≡ to_taken (unnamed_slot count c.index) }
{
    let i = c.index;
    if count == 0 {
        return Ok((DEV_SLOT, c));
    }
    if count == 1 {
        return Ok((INST_SLOT, c));
    }
    Err(tokens::cursor::refuse(26, i))
}

#[tactic(auto, unfolding(crate::specs::Args::slot_at, tokens::specs::Cursor::to_taken))]
fn slot_at(c: Cursor, t: &Tokens<'_>, count: u32) -> Taken<u32>
    ensures { result ≡ to_taken (slot_at (tokens t.now.text.now t.now.words.now) count c.index) }
{
    if is_named(c, t) {
        return named_slot(c, t);
    }
    unnamed_slot(c, count)
}

// The instance type that a word names.
fn type_word(w: &[u8]) -> u32
    ensures { result ≡ type_word w.now }
{
    if text::part::same(w, b"button") {
        return PUSH_BUTTON;
    }
    if text::part::same(w, b"absolute") {
        return ABSOLUTE_INPUT;
    }
    if text::part::same(w, b"occupancy") {
        return OCCUPANCY_SENSOR;
    }
    if text::part::same(w, b"light") {
        return LIGHT_SENSOR;
    }
    NO_TYPE
}

#[tactic(auto, unfolding(crate::specs::Args::input_type_value, tokens::specs::Cursor::to_taken, tokens::specs::Cursor::tokens, model::specs::Limits::last_instance_type, tokens::specs::Cursor::accepted))]
fn input_type_value(c: Cursor, t: &Tokens<'_>) -> Taken<u32>
    ensures { result ≡ to_taken (input_type_value (tokens t.now.text.now t.now.words.now) c.index) }
{
    let i = c.index;
    let Some(next) = c.accept(t, tokens::kind::WORD) else {
        return c.expect_int_in(t, 0, limits::MAX_INSTANCE_TYPE);
    };
    let kind = type_word(t.bytes(i));
    if kind == NO_TYPE {
        return Err(tokens::cursor::refuse(21, i));
    }
    Ok((kind, next))
}

#[tactic(auto, unfolding(crate::specs::Args::device_item, tokens::specs::Cursor::to_taken))]
fn device_item(c: Cursor, t: &Tokens<'_>, view: &View<'_>) -> Taken<Item>
    ensures { result ≡ to_taken (device_item (tokens t.now.text.now t.now.words.now) (view_of view.now.settings view.now.sheet.now) c.index) }
{
    let (d, next) = refs::name_or_id(c, t, view)?;
    Ok((Item::Device(d), next))
}

#[tactic(auto, unfolding(crate::specs::Args::instance_item, model::specs::Limits::last_instance, tokens::specs::Cursor::to_taken))]
fn instance_item(c: Cursor, t: &Tokens<'_>) -> Taken<Item>
    ensures { result ≡ to_taken (instance_item (tokens t.now.text.now t.now.words.now) c.index) }
{
    let (n, next) = c.expect_int_in(t, 0, limits::MAX_INSTANCE)?;
    Ok((Item::Instance(n), next))
}

#[tactic(auto, unfolding(crate::specs::Args::group_item, model::specs::Limits::last_instance_group, tokens::specs::Cursor::to_taken))]
fn group_item(c: Cursor, t: &Tokens<'_>) -> Taken<Item>
    ensures { result ≡ to_taken (group_item (tokens t.now.text.now t.now.words.now) c.index) }
{
    let i = c.index;
    let (n, next) = c.expect_int_in(t, 0, limits::MAX_INSTANCE_GROUP)?;
    Ok((Item::Group(n, i), next))
}

#[tactic(auto, unfolding(crate::specs::Args::type_item, tokens::specs::Cursor::to_taken))]
fn type_item(c: Cursor, t: &Tokens<'_>) -> Taken<Item>
    ensures { result ≡ to_taken (type_item (tokens t.now.text.now t.now.words.now) c.index) }
{
    let (n, next) = input_type_value(c, t)?;
    Ok((Item::Type(n), next))
}

#[tactic(auto, unfolding(crate::specs::Args::adapter_item, tokens::specs::Cursor::to_taken))]
fn adapter_item(c: Cursor, t: &Tokens<'_>, view: &View<'_>) -> Taken<Item>
    ensures { result ≡ to_taken (adapter_item (tokens t.now.text.now t.now.words.now) (view_of view.now.settings view.now.sheet.now) c.index) }
{
    let (a, next) = refs::adapter_number(c, t, view)?;
    Ok((Item::Adapter(a), next))
}

// The value of the argument of a slot, asked for slot by slot, as the definition `item_at` does: a table of functions would say no more.
#[tactic(auto, unfolding(crate::specs::Args::item_at, tokens::specs::Cursor::to_taken))]
fn item_at(c: Cursor, t: &Tokens<'_>, view: &View<'_>, slot: u32) -> Taken<Item>
    ensures { result ≡ to_taken (item_at (tokens t.now.text.now t.now.words.now) (view_of view.now.settings view.now.sheet.now) slot c.index) }
{
    if slot == DEV_SLOT {
        return device_item(c, t, view);
    }
    if slot == INST_SLOT {
        return instance_item(c, t);
    }
    if slot == GROUP_SLOT {
        return group_item(c, t);
    }
    if slot == TYPE_SLOT {
        return type_item(c, t);
    }
    adapter_item(c, t, view)
}

// Is the argument of that slot there already?
#[tactic(auto, unfolding(crate::specs::Args::is_set, crate::specs::Args::is_dev, crate::specs::Args::is_number, crate::specs::Args::is_group, crate::specs::Args::is_on))]
fn is_set(a: Args, slot: u32) -> bool
    ensures { result ≡ is_set a slot }
{
    match slot {
        DEV_SLOT => a.dev.is_some(),
        INST_SLOT => a.inst.is_some(),
        GROUP_SLOT => a.group.is_some(),
        TYPE_SLOT => a.kind.is_some(),
        ADAPTER_SLOT => is_on(a.scope),
        _ => false,
    }
}

// Is it there, in a call that refuses a repeat?
#[tactic(auto, unfolding(crate::specs::Args::is_repeat, sheet::specs::View::may_repeat))]
fn is_repeat(habit: Habit, a: Args, slot: u32) -> bool
    ensures { result ≡ is_repeat (may_repeat habit) a slot }
{
    match habit {
        Habit::Archive => false,
        Habit::Rule | Habit::Shop => is_set(a, slot),
    }
}

// One argument behind those in a, of which count are unnamed; a repeat is refused before its value is read.
#[tactic(auto, unfolding(crate::specs::Args::arg_at, sheet::specs::View::view_of, tokens::specs::Cursor::to_taken))]
fn arg_at(c: Cursor, t: &Tokens<'_>, view: &View<'_>, a: Args, count: u32) -> Taken<Item>
    ensures { result ≡ to_taken (arg_at (tokens t.now.text.now t.now.words.now) (view_of view.now.settings view.now.sheet.now) a count c.index) }
{
    let i = c.index;
    let habit = view.settings.habit;
    let (n, next) = slot_at(c, t, count)?;
    if is_repeat(habit, a, n) {
        return Err(tokens::cursor::refuse(63, i));
    }
    item_at(next, t, view, n)
}

// The arguments with one more; an earlier one of the same slot is replaced.
#[tactic(auto, unfolding(crate::specs::Args::put))]
fn put_item(a: Args, item: Item) -> Args
    ensures { result ≡ put a item }
{
    match item {
        Item::Device(d) => Args { dev: Some(d), ..a },
        Item::Instance(n) => Args { inst: Some(n), ..a },
        Item::Group(n, i) => Args {
            group: Some((n, i)),
            ..a
        },
        Item::Type(n) => Args { kind: Some(n), ..a },
        Item::Adapter(n) => Args {
            scope: Scope::On(n),
            ..a
        },
    }
}

// How many unnamed arguments there are with the one in hand; two and more are alike.
#[tactic(auto, unfolding(crate::specs::Args::count_with))]
fn count_with(c: Cursor, t: &Tokens<'_>, count: u32) -> u32
    ensures { result ≡ count_with (tokens t.now.text.now t.now.words.now) count c.index }
{
    if is_named(c, t) {
        return count;
    }
    if count < 2 { count + 1 } else { 2 }
}

#[tactic(auto, unfolding(crate::specs::Args::no_args))]
fn no_args() -> Args
    ensures { result ≡ no_args }
{
    Args {
        dev: None,
        inst: None,
        group: None,
        kind: None,
        scope: Scope::Any,
    }
}

// The arguments from c on, parted by commas. There are at most as many as there are tokens.
#[tactic(auto, unfolding(crate::specs::Args::args_from, tokens::specs::Cursor::to_taken, tokens::specs::Cursor::accepted))]
fn args_list(c: Cursor, t: &Tokens<'_>, view: &View<'_>) -> Taken<Args>
    ensures { result ≡ to_taken (args_from (tokens t.now.text.now t.now.words.now) (view_of view.now.settings view.now.sheet.now) (capacity t.now.words.now) no_args 0 c.index) }
{
    let mut args = no_args();
    let mut count: u32 = 0;
    let mut p = c;
    for _ in 0..tokens::record::count(t.words) {
        let (item, next) = arg_at(p, t, view, args, count)?;
        args = put_item(args, item);
        count = count_with(p, t, count);
        let Some(behind) = next.accept(t, tokens::kind::COMMA) else {
            return Ok((args, next));
        };
        p = behind;
    }
    Err(tokens::cursor::refuse(20, p.index))
}

#[tactic(auto, unfolding(crate::specs::Args::device_instance, model::specs::Limits::last_short_address, tokens::specs::Cursor::to_taken))]
fn device_instance(
    next: Cursor,
    t: &Tokens<'_>,
    view: &View<'_>,
    scope: Scope,
    d: NameOrId,
    n: u32,
) -> Taken<Selector>
    ensures { result ≡ to_taken (device_instance (tokens t.now.text.now t.now.words.now) (view_of view.now.settings view.now.sheet.now) scope next.index d n) }
{
    let (r, behind) = refs::referred_to(next, t, view, kind::INPUT, Ref::MAX_INPUT, scope, d)?;
    Ok((Selector::Instance(r, n), behind))
}

#[tactic(auto, unfolding(crate::specs::Args::with_inst, tokens::specs::Cursor::to_taken))]
fn with_inst(
    next: Cursor,
    t: &Tokens<'_>,
    view: &View<'_>,
    scope: Scope,
    close: usize,
    d: NameOrId,
    inst: Option<u32>,
) -> Taken<Selector>
    ensures { result ≡ to_taken (with_inst (tokens t.now.text.now t.now.words.now) (view_of view.now.settings view.now.sheet.now) scope close next.index d inst) }
{
    match inst {
        None => Err(tokens::cursor::refuse(29, close)),
        Some(n) => device_instance(next, t, view, scope, d, n),
    }
}

#[tactic(auto, unfolding(crate::specs::Args::with_dev, tokens::specs::Cursor::to_taken))]
fn with_dev(next: Cursor, t: &Tokens<'_>, view: &View<'_>, a: Args, close: usize) -> Taken<Selector>
    ensures { result ≡ to_taken (with_dev (tokens t.now.text.now t.now.words.now) (view_of view.now.settings view.now.sheet.now) a close next.index a.dev) }
{
    match a.dev {
        None => Err(tokens::cursor::refuse(28, close)),
        Some(d) => with_inst(next, t, view, a.scope, close, d, a.inst),
    }
}

#[tactic(auto, unfolding(crate::specs::Args::is_on))]
fn is_on(scope: Scope) -> bool
    ensures { result ≡ is_on scope }
{
    match scope {
        Scope::Any => false,
        Scope::On(_) => true,
    }
}

// The arguments judged; close is the index of `)`.
#[tactic(auto, unfolding(crate::specs::Args::selected, crate::specs::Args::with_group, crate::specs::Args::is_dev, crate::specs::Args::is_number, tokens::specs::Cursor::to_taken))]
fn selected_by(
    next: Cursor,
    t: &Tokens<'_>,
    view: &View<'_>,
    a: Args,
    close: usize,
) -> Taken<Selector>
    ensures { result ≡ to_taken (selected (tokens t.now.text.now t.now.words.now) (view_of view.now.settings view.now.sheet.now) a close next.index) }
{
    let Some((g, i)) = a.group else {
        return with_dev(next, t, view, a, close);
    };
    if a.dev.is_some() || a.inst.is_some() {
        return Err(tokens::cursor::refuse(27, i));
    }
    Ok((
        Selector::Group(refs::scope_or_primary(view, a.scope), g, a.kind),
        next,
    ))
}

#[tactic(auto, unfolding(crate::specs::Args::close_args, tokens::specs::Cursor::to_taken))]
fn close_args(c: Cursor, t: &Tokens<'_>, view: &View<'_>, a: Args) -> Taken<Selector>
    ensures { result ≡ to_taken (close_args (tokens t.now.text.now t.now.words.now) (view_of view.now.settings view.now.sheet.now) a c.index) }
{
    let i = c.index;
    let (_, next) = c.expect(t, tokens::kind::CLOSE)?;
    selected_by(next, t, view, a, i)
}

// ARGS.
#[tactic(auto, unfolding(crate::specs::Args::input_selector, tokens::specs::Cursor::to_taken))]
pub fn input_selector(c: Cursor, t: &Tokens<'_>, view: &View<'_>) -> Taken<Selector>
    ensures { result ≡ to_taken (input_selector (tokens t.now.text.now t.now.words.now) (view_of view.now.settings view.now.sheet.now) (capacity t.now.words.now) c.index) }
{
    let (_, next) = c.expect(t, tokens::kind::OPEN)?;
    let (a, behind) = args_list(next, t, view)?;
    close_args(behind, t, view, a)
}

// One instance, or 30 at the parenthesis, whose index is paren.
#[tactic(auto, unfolding(crate::specs::Args::one_instance, tokens::specs::Cursor::to_taken))]
pub fn one_instance(paren: usize, next: Cursor, selector: Selector) -> Taken<InputRef>
    ensures { result ≡ to_taken (one_instance paren next.index selector) }
{
    match selector {
        Selector::Instance(device, instance) => Ok((InputRef { device, instance }, next)),
        Selector::Group(_, _, _) => Err(tokens::cursor::refuse(30, paren)),
    }
}

// ARGS with one instance.
#[tactic(auto, unfolding(crate::specs::Args::input_ref, tokens::specs::Cursor::to_taken))]
pub fn input_ref(c: Cursor, t: &Tokens<'_>, view: &View<'_>) -> Taken<InputRef>
    ensures { result ≡ to_taken (input_ref (tokens t.now.text.now t.now.words.now) (view_of view.now.settings view.now.sheet.now) (capacity t.now.words.now) c.index) }
{
    let i = c.index;
    let (chosen, next) = input_selector(c, t, view)?;
    one_instance(i, next, chosen)
}
