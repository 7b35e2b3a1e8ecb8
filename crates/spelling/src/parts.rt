// References, names and bounds of time as they are written.
ghost use Rattle.std.specs.Prelude.{[], ◌∷◌, ◌++◌};
ghost use Rattle.writing.specs.Write.{ref_pieces, device_pieces, instance_pieces, selector_pieces, input_pieces, target_pieces, name_pieces, adapter_pieces, type_pieces, bound_pieces, solar_word};
ghost use Rattle.writing.specs.Pieces.{Piece, further};
ghost use Rattle.spelling.specs.Put.{Put, Fits};
ghost use Rattle.tokens.specs.Kind.{CLOSE};
ghost use Rattle.topics.specs.Ranges.{name_in};

use crate::numbers::{put_number, put_time};
use crate::put::{put, put_string};
use crate::signed::put_offset;
use model::{InputRef, LightTarget, Name, Ref, Selector, SolarEvent, TimeBound};

// Some bytes, and a number.
pub fn put_argument(out: &mut [u8], at: usize, before: &[u8], n: u32) -> usize
    requires { Fits out.old at (before.now ++ further (Piece.integer n ∷ [])) }
    ensures { Put out.old at (before.now ++ further (Piece.integer n ∷ [])) out.new result }
{
    let i = put(out, at, before);
    put_number(out, i, n as u64)
}

// An adapter that is not the primary.
fn put_adapter(out: &mut [u8], at: usize, primary: u32, adapter: u32) -> usize
    requires { Fits out.old at (further (adapter_pieces primary adapter)) }
    ensures { Put out.old at (further (adapter_pieces primary adapter)) out.new result }
{
    if adapter == primary {
        return at;
    }
    put_argument(out, at, b" , adapter =", adapter)
}

fn put_type(out: &mut [u8], at: usize, of: Option<u32>) -> usize
    requires { Fits out.old at (further (type_pieces of)) }
    ensures { Put out.old at (further (type_pieces of)) out.new result }
{
    match of {
        None => at,
        Some(n) => put_argument(out, at, b" , type =", n),
    }
}

// The end of a reference.
pub fn put_close(out: &mut [u8], at: usize, primary: u32, adapter: u32) -> usize
    requires { Fits out.old at (further (adapter_pieces primary adapter ++ Piece.sign CLOSE ∷ [])) }
    ensures { Put out.old at (further (adapter_pieces primary adapter ++ Piece.sign CLOSE ∷ [])) out.new result }
{
    let i = put_adapter(out, at, primary, adapter);
    put(out, i, b" )")
}

// A reference by its id.
fn put_ref(out: &mut [u8], at: usize, primary: u32, r: Ref) -> usize
    requires { Fits out.old at (further (ref_pieces primary r)) }
    ensures { Put out.old at (further (ref_pieces primary r)) out.new result }
{
    let i = put_argument(out, at, b" (", r.number);
    put_close(out, i, primary, r.adapter)
}

// Some bytes, and a reference.
pub fn put_reference(out: &mut [u8], at: usize, before: &[u8], primary: u32, r: Ref) -> usize
    requires { Fits out.old at (before.now ++ further (ref_pieces primary r)) }
    ensures { Put out.old at (before.now ++ further (ref_pieces primary r)) out.new result }
{
    let i = put(out, at, before);
    put_ref(out, i, primary, r)
}

// An input device.
pub fn put_device(out: &mut [u8], at: usize, primary: u32, r: Ref) -> usize
    requires { Fits out.old at (further (device_pieces primary r)) }
    ensures { Put out.old at (further (device_pieces primary r)) out.new result }
{
    let i = put_argument(out, at, b" ( dev =", r.number);
    put_close(out, i, primary, r.adapter)
}

// An instance of an input device.
fn put_instance(out: &mut [u8], at: usize, primary: u32, r: Ref, instance: u32) -> usize
    requires { Fits out.old at (further (instance_pieces primary r instance)) }
    ensures { Put out.old at (further (instance_pieces primary r instance)) out.new result }
{
    let i = put_argument(out, at, b" ( dev =", r.number);
    let j = put_argument(out, i, b" , inst =", instance);
    put_close(out, j, primary, r.adapter)
}

// A group of instances.
fn put_instances(
    out: &mut [u8],
    at: usize,
    primary: u32,
    adapter: u32,
    group: u32,
    of: Option<u32>,
) -> usize
    requires { Fits out.old at (further (selector_pieces primary (Selector.Group adapter group of))) }
    ensures { Put out.old at (further (selector_pieces primary (Selector.Group adapter group of))) out.new result }
{
    let i = put_argument(out, at, b" ( group =", group);
    let j = put_type(out, i, of);
    put_close(out, j, primary, adapter)
}

pub fn put_input(out: &mut [u8], at: usize, primary: u32, r: InputRef) -> usize
    requires { Fits out.old at (further (input_pieces primary r)) }
    ensures { Put out.old at (further (input_pieces primary r)) out.new result }
{
    let i = put(out, at, b" input");
    put_instance(out, i, primary, r.device, r.instance)
}

// A quoted name in parentheses.
pub fn put_name(out: &mut [u8], at: usize, text: &[u8], name: Name) -> usize
    requires { Fits out.old at (further (name_pieces (name_in text.now) name)) }
    ensures { Put out.old at (further (name_pieces (name_in text.now) name)) out.new result }
{
    let i = put(out, at, b" (");
    let j = put_string(out, i, text, name);
    put(out, j, b" )")
}

// A name between some bytes.
pub fn put_named(
    out: &mut [u8],
    at: usize,
    before: &[u8],
    text: &[u8],
    name: Name,
    behind: &[u8],
) -> usize
    requires { Fits out.old at (before.now ++ (further (name_pieces (name_in text.now) name) ++ behind.now)) }
    ensures { Put out.old at (before.now ++ (further (name_pieces (name_in text.now) name) ++ behind.now)) out.new result }
{
    let i = put(out, at, before);
    let j = put_name(out, i, text, name);
    put(out, j, behind)
}

fn put_solar_event(out: &mut [u8], at: usize, event: SolarEvent) -> usize
    requires { Fits out.old at (further (Piece.word (solar_word event) ∷ [])) }
    ensures { Put out.old at (further (Piece.word (solar_word event) ∷ [])) out.new result }
{
    match event {
        SolarEvent::Sunrise => put(out, at, b" sunrise"),
        SolarEvent::Sunset => put(out, at, b" sunset"),
    }
}

// A solar event with its offset.
pub fn put_solar(out: &mut [u8], at: usize, event: SolarEvent, offset: i32) -> usize
    requires { Fits out.old at (further (bound_pieces (TimeBound.Solar event offset))) }
    ensures { Put out.old at (further (bound_pieces (TimeBound.Solar event offset))) out.new result }
{
    let i = put_solar_event(out, at, event);
    put_offset(out, i, offset)
}

pub fn put_selector(out: &mut [u8], at: usize, primary: u32, s: Selector) -> usize
    requires { Fits out.old at (further (selector_pieces primary s)) }
    ensures { Put out.old at (further (selector_pieces primary s)) out.new result }
{
    match s {
        Selector::Instance(r, n) => put_instance(out, at, primary, r, n),
        Selector::Group(adapter, group, of) => put_instances(out, at, primary, adapter, group, of),
    }
}

pub fn put_target(out: &mut [u8], at: usize, primary: u32, to: LightTarget) -> usize
    requires { Fits out.old at (further (target_pieces primary to)) }
    ensures { Put out.old at (further (target_pieces primary to)) out.new result }
{
    match to {
        LightTarget::Lamp(r) => put_reference(out, at, b" lamp", primary, r),
        LightTarget::Group(r) => put_reference(out, at, b" group", primary, r),
        LightTarget::Broadcast(_) => put(out, at, b" broadcast"),
    }
}

pub fn put_bound(out: &mut [u8], at: usize, bound: TimeBound) -> usize
    requires { Fits out.old at (further (bound_pieces bound)) }
    ensures { Put out.old at (further (bound_pieces bound)) out.new result }
{
    match bound {
        TimeBound::Clock(m) => put_time(out, at, m),
        TimeBound::Solar(event, offset) => put_solar(out, at, event, offset),
    }
}
