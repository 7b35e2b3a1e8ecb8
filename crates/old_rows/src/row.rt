// One row of the archive. What a row says is one definition, row_of, and read by one function, row_of.
ghost use Rattle.std.specs.Prelude.{◌≡◌};
ghost use Rattle.old_rows.specs.Row.{lamp_change, group_change, device_change, change_of, is_known, on_adapter, scoped, behind_name, behind_kind, row_of, row_name};

use model::{Aggregate, Online, Power, limits};
use sheet::line;
use sheet::resolve::Scope;

// What becomes of a lamp, a group or a device.
#[derive(Clone, Copy)]
pub enum Change {
    Lamp(Power),
    Group(Aggregate),
    Device(Online),
    Unknown,
}

// A change of what has the row's name, on one adapter or on any.
#[derive(Clone, Copy)]
pub struct Row {
    pub change: Change,
    pub scope: Scope,
}

#[tactic(auto, unfolding(crate::specs::Row::lamp_change))]
fn lamp_change(w: &[u8]) -> Change
    ensures { result ≡ lamp_change w.now }
{
    if text::part::same(w, b"on") {
        return Change::Lamp(Power::On);
    }
    if text::part::same(w, b"off") {
        return Change::Lamp(Power::Off);
    }
    Change::Unknown
}

#[tactic(auto, unfolding(crate::specs::Row::group_change))]
fn group_change(w: &[u8]) -> Change
    ensures { result ≡ group_change w.now }
{
    if text::part::same(w, b"any_on") {
        return Change::Group(Aggregate::AnyOn);
    }
    if text::part::same(w, b"all_off") {
        return Change::Group(Aggregate::AllOff);
    }
    Change::Unknown
}

#[tactic(auto, unfolding(crate::specs::Row::device_change))]
fn device_change(w: &[u8]) -> Change
    ensures { result ≡ device_change w.now }
{
    if text::part::same(w, b"offline") {
        return Change::Device(Online::GoesOffline);
    }
    if text::part::same(w, b"online") {
        return Change::Device(Online::ComesOnline);
    }
    Change::Unknown
}

// The change that a kind and a word say.
#[tactic(auto, unfolding(crate::specs::Row::change_of))]
fn change_of(k: &[u8], w: &[u8]) -> Change
    ensures { result ≡ change_of k.now w.now }
{
    if text::part::same(k, b"lamp") {
        return lamp_change(w);
    }
    if text::part::same(k, b"group") {
        return group_change(w);
    }
    if text::part::same(k, b"device") {
        return device_change(w);
    }
    Change::Unknown
}

#[tactic(auto, unfolding(crate::specs::Row::is_known))]
pub fn is_known(change: Change) -> bool
    ensures { result ≡ is_known change }
{
    !matches!(change, Change::Unknown)
}

#[tactic(auto, unfolding(crate::specs::Row::on_adapter, model::specs::Limits::last_adapter))]
fn on_adapter(change: Change, a: Option<u32>) -> Option<Row>
    ensures { result ≡ on_adapter change a }
{
    match a {
        Some(a) if a <= limits::MAX_ADAPTER => Some(Row {
            change,
            scope: Scope::On(a),
        }),
        _ => None,
    }
}

// A change with the adapter's field, which may be empty.
#[tactic(auto, unfolding(crate::specs::Row::scoped), using(crate::proofs::RowLaws::by_number))]
fn scoped(change: Change, a: &[u8]) -> Option<Row>
    ensures { result ≡ scoped change a.now }
{
    if a.is_empty() {
        return Some(Row {
            change,
            scope: Scope::Any,
        });
    }
    on_adapter(change, line::decimal(a))
}

// A row of a kind, from behind the name's comma.
fn behind_name(k: &[u8], l: &[u8]) -> Option<Row>
    ensures { result ≡ behind_name k.now l.now }
{
    let at = line::comma(l);
    if l.len() <= at {
        return None;
    }
    let change = change_of(k, &l[at + 1..]);
    if is_known(change) {
        return scoped(change, &l[..at]);
    }
    None
}

// A row of a kind, from behind the kind's comma.
fn behind_kind(k: &[u8], l: &[u8]) -> Option<Row>
    ensures { result ≡ behind_kind k.now l.now }
{
    let at = line::comma(l);
    if l.len() <= at {
        return None;
    }
    if line::is_name(&l[..at]) {
        return behind_name(k, &l[at + 1..]);
    }
    None
}

// What a row without its LF says; None of a malformed one.
pub fn row_of(l: &[u8]) -> Option<Row>
    ensures { result ≡ row_of l.now }
{
    let at = line::comma(l);
    if l.len() <= at {
        return None;
    }
    behind_kind(&l[..at], &l[at + 1..])
}

// The name in a row.
pub fn row_name(l: &[u8]) -> &[u8]
    ensures { result.now ≡ row_name l.now }
{
    let more = line::behind_comma(l);
    &more[..line::comma(more)]
}
