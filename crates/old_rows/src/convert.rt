// Rows converted to triggers (specs/Convert.antt).
ghost use Rattle.std.specs.Prelude.{◌≡◌, true, ◌≤◌, length};
ghost use Rattle.sheet.specs.Sheet.{lines};
ghost use Rattle.sheet.specs.View.{view_of};
ghost use Rattle.language.specs.Limits.{most_triggers};
ghost use Rattle.old_rows.specs.Convert.{is_well, first_malformed, changed_kind, trigger_by, is_seen, found_of, found_in, change_in, convert_from, answered, by_shape, rows_of};

use crate::row;
use crate::row::{Change, Row};
use model::{Answer, Ref, Trigger, TriggerRow};
use sheet::resolve::{Scope, Unfound};
use sheet::{Habit, Settings, View, adapters, kind};

// How many rows there may be.
const MAX_ROWS: u32 = 4;

#[tactic(auto, unfolding(crate::specs::Convert::is_well))]
fn is_well(r: Option<Row>) -> bool
    ensures { result ≡ is_well r }
{
    r.is_some()
}

// The first malformed or fifth row, from 1 on; 0 where there is none. A last row without LF is malformed.
fn first_malformed(s: &[u8]) -> u32
    ensures { result ≡ first_malformed s.now }
{
    let mut n: u32 = 1;
    // A row begins behind the LF that ends the one before it: no step is the same, so no `for` counts them.
    let mut at = 0;
    while at < s.len() {
        if MAX_ROWS < n {
            return n;
        }
        let end = sheet::rows::line_end(s, at);
        if end == s.len() {
            return n;
        }
        if !is_well(row::row_of(text::part::part(s, at, end))) {
            return n;
        }
        n += 1;
        at = end + 1;
    }
    0
}

// The kind of what changes.
#[tactic(auto, unfolding(crate::specs::Convert::changed_kind, sheet::specs::Kind::no_kind, sheet::specs::Kind::lamp_kind, sheet::specs::Kind::group_kind, sheet::specs::Kind::device_kind))]
pub fn changed_kind(change: Change) -> u32
    ensures { result ≡ changed_kind change }
{
    match change {
        Change::Lamp(_) => kind::LAMP,
        Change::Group(_) => kind::GROUP,
        Change::Device(_) => kind::DEVICE,
        Change::Unknown => kind::NONE,
    }
}

#[tactic(auto, unfolding(crate::specs::Convert::trigger_by))]
fn trigger_by(change: Change, r: Ref) -> Trigger
    ensures { result ≡ trigger_by change r }
{
    match change {
        Change::Lamp(power) => Trigger::LampTurns(r, power),
        Change::Group(state) => Trigger::GroupBecomes(r, state),
        Change::Device(state) => Trigger::DeviceOnline(r, state),
        Change::Unknown => Trigger::HttpTrigger,
    }
}

// Is the adapter that is named, if one is, listed?
#[tactic(auto, unfolding(crate::specs::Convert::is_seen, sheet::specs::View::view_of))]
fn is_seen(view: &View<'_>, scope: Scope) -> bool
    ensures { result ≡ is_seen (view_of view.now.settings view.now.sheet.now) scope }
{
    match scope {
        Scope::Any => true,
        Scope::On(a) => view.adapter_exists(a),
    }
}

#[tactic(auto, unfolding(crate::specs::Convert::found_of, sheet::specs::View::view_of))]
fn found_of(view: &View<'_>, change: Change, scope: Scope, name: &[u8]) -> Result<Ref, Unfound>
    ensures { result ≡ found_of (view_of view.now.settings view.now.sheet.now) change scope name.now }
{
    if is_seen(view, scope) {
        return view.pick_named(changed_kind(change), name, scope);
    }
    Err(Unfound {
        number: 25,
        detail: 0,
    })
}

// What a row's name picks.
#[tactic(auto, unfolding(crate::specs::Convert::found_in))]
fn found_in(view: &View<'_>, r: Option<Row>, name: &[u8]) -> Result<Ref, Unfound>
    ensures { result ≡ found_in (view_of view.now.settings view.now.sheet.now) r name.now }
{
    match r {
        Some(row) => found_of(view, row.change, row.scope, name),
        None => Err(Unfound {
            number: 60,
            detail: 0,
        }),
    }
}

#[tactic(auto, unfolding(crate::specs::Convert::change_in))]
fn change_in(r: Option<Row>) -> Change
    ensures { result ≡ change_in r }
{
    match r {
        Some(row) => row.change,
        None => Change::Unknown,
    }
}

// The triggers of at most four rows, or the refusal of the first that names none.
fn convert_rows(s: &[u8], view: &View<'_>) -> Answer
    requires { length (lines s.now) ≤ most_triggers }
    ensures { result ≡ answered (convert_from (view_of view.now.settings view.now.sheet.now) 1 (lines s.now)) }
{
    let mut list = model::no_triggers();
    // From row to row, as in first_malformed.
    let mut at = 0;
    while at < s.len() {
        let end = sheet::rows::line_end(s, at);
        let l = text::part::part(s, at, end);
        let r = row::row_of(l);
        let found = found_in(view, r, row::row_name(l));
        match found {
            Err(e) => {
                return model::refused(e.number, list.count as u32 + 1, 0, e.detail);
            }
            Ok(of) => {
                let trigger = trigger_by(change_in(r), of);
                let i = list.count;
                list.rows[i] = TriggerRow { trigger };
                list.count = i + 1;
            }
        }
        at = end + 1;
    }
    Answer {
        number: 0,
        line: 0,
        column: 0,
        detail: 0,
        triggers: list,
        conditions: model::no_conditions(),
    }
}

// The call where its primary adapter is its party's: are the rows well formed?
fn convert_well(s: &[u8], view: &View<'_>) -> Answer
    ensures { result ≡ by_shape (view_of view.now.settings view.now.sheet.now) s.now }
{
    if s.is_empty() {
        return model::refused(60, 0, 0, 0);
    }
    let n = first_malformed(s);
    if n == 0 {
        return convert_rows(s, view);
    }
    model::refused(60, n, 0, 0)
}

// Converts one to four rows to triggers with a name sheet, for a party, with its own primary adapter.
pub fn convert(s: &[u8], sheet: &[u8], party: u8, primary: u8) -> Answer
    ensures { result ≡ rows_of party primary s.now sheet.now }
{
    let adapter = primary as u32;
    match sheet::rows::check(sheet, party as u32) {
        Err(bad) => model::refused(3, bad.line, 0, 0),
        Ok(said) => {
            if adapters::has(said.own, adapter) {
                return convert_well(
                    s,
                    &View {
                        sheet,
                        settings: Settings {
                            primary: adapter,
                            habit: Habit::Rule,
                            own: said.own,
                            listed: said.listed,
                        },
                    },
                );
            }
            model::refused(53, 0, 0, 0)
        }
    }
}
