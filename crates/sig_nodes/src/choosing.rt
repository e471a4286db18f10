ghost use Rattle.std.specs.Prelude.{◌≡◌, ◌≢◌, [], ◌∷◌, ◌++◌, ◌<◌, ◌≤◌, length, option_and_then, unwrap_or, All, None, IfOk, OnErr, OnOk};
ghost use Rattle.std.specs.List.{flat_map, fold};
ghost use Rattle.sig_bank.specs.Banks.{bank_next, chosen_place, list_at};
ghost use Rattle.sig_bank.specs.Tables.{filter_by_signal, map_by_signal, pick_gives, switch_gives};
ghost use Rattle.sig_diff.specs.Choosing.{is_let_in, raised_by};
ghost use Rattle.sig_diff.specs.Differences.{IsLawful};
ghost use Rattle.sig_diff.specs.Replaying.{AreLawful, replayed};
ghost use Rattle.sig_ops.specs.Tables.{filter_gives, map_gives};
ghost use Rattle.sig_rows.specs.Flow.{given_along, given_list, through};
ghost use Rattle.sig_rows.specs.Joins.{Goes};
ghost use Rattle.sig_nodes.specs.Choices.{after_choice, after_picked, with_items};
ghost use Rattle.sig_nodes.specs.Banks.{gives_by, next_by};
ghost use Rattle.sig_nodes.specs.declared.banks.Given.{Given};

use crate::banks::Given;
use sig_bank::{FilterBy, MapBy, Pick, Switch};
use sig_diff::{Diffs, NoMemory, VecDiff};
use std::alloc::Global;

/// What a filter by signals gives for differences that its list takes, and then for the values that its signals gave.
#[tactic(auto, using(sig_rows::proofs::GoingAlong::goes_next, sig_rows::proofs::GoingAlong::few_next, sig_rows::proofs::GoingAlong::few_now))]
pub fn filtered_by(
    alloc: Global,
    op: &mut FilterBy,
    diffs: &Diffs<i64>,
    values: &[Given],
) -> Result<Diffs<i64>, NoMemory>
    requires goes { Goes 65536 op.old.items diffs.now }
    requires short { length (replayed op.old.items diffs.now) ≤ 65536 }
    requires each { All (λ (value : Given). value.place < length op.old.signals) values.now }
    ensures given { IfOk result (λ given. given ≡ through (filter_gives (is_let_in op.old.signals)) op.old.items diffs.now ++ given_along (gives_by filter_by_signal) next_by (with_items op.old diffs.now) values.now) }
    ensures state { OnOk result (op.new ≡ fold next_by (with_items op.old diffs.now) values.now) }
    ensures some { OnErr result (diffs.now ≡ [] → values.now ≢ []) }
{
    let mut given = Diffs::new(alloc);
    'diffs: for diff in diffs.as_slice() {
        op.step_list(diff, &mut given)?;
    }
    filter_signals(op, values, &mut given)?;
    Ok(given)
}

/// Adds what a filter by signals gives for the values that its signals gave.
fn filter_signals(
    op: &mut FilterBy,
    values: &[Given],
    given: &mut Diffs<i64>,
) -> Result<(), NoMemory>
    requires short { length op.old.items ≤ 65536 }
    requires each { All (λ (value : Given). value.place < length op.old.signals) values.now }
    ensures given { OnOk result (given.new ≡ given.old ++ given_along (gives_by filter_by_signal) next_by op.old values.now) }
    ensures state { OnOk result (op.new ≡ fold next_by op.old values.now) }
    ensures some { OnErr result (values.now ≢ []) }
{
    'values: for value in values {
        filter_signal(op, value, given)?;
    }
    Ok(())
}

/// Adds what a filter by signals gives for a value that a signal gave.
fn filter_signal(op: &mut FilterBy, value: &Given, given: &mut Diffs<i64>) -> Result<(), NoMemory>
    requires within { value.now.place < length op.old.signals }
    requires short { length op.old.items ≤ 65536 }
    ensures given { OnOk result (given.new ≡ given.old ++ gives_by filter_by_signal op.old value.now) }
    ensures state { OnOk result (op.new ≡ next_by op.old value.now) }
{
    op.step_signal(value.place, value.value, given)
}

/// What a map by signals gives for differences of its list, and then for the values that its signals gave.
pub fn mapped_by(
    alloc: Global,
    op: &mut MapBy,
    diffs: &Diffs<i64>,
    values: &[Given],
) -> Result<Diffs<i64>, NoMemory>
    requires lawful { AreLawful op.old.items diffs.now }
    requires short { length (replayed op.old.items diffs.now) ≤ 65536 }
    requires each { All (λ (value : Given). value.place < length op.old.signals) values.now }
    ensures given { IfOk result (λ given. given ≡ flat_map (map_gives (raised_by op.old.signals)) diffs.now ++ given_along (gives_by map_by_signal) next_by (with_items op.old diffs.now) values.now) }
    ensures state { OnOk result (op.new ≡ fold next_by (with_items op.old diffs.now) values.now) }
    ensures some { OnErr result (diffs.now ≡ [] → values.now ≢ []) }
{
    let mut given = Diffs::new(alloc);
    'diffs: for diff in diffs.as_slice() {
        op.step_list(diff, &mut given)?;
    }
    map_signals(op, values, &mut given)?;
    Ok(given)
}

/// Adds what a map by signals gives for the values that its signals gave.
fn map_signals(op: &mut MapBy, values: &[Given], given: &mut Diffs<i64>) -> Result<(), NoMemory>
    requires short { length op.old.items ≤ 65536 }
    requires each { All (λ (value : Given). value.place < length op.old.signals) values.now }
    ensures given { OnOk result (given.new ≡ given.old ++ given_along (gives_by map_by_signal) next_by op.old values.now) }
    ensures state { OnOk result (op.new ≡ fold next_by op.old values.now) }
    ensures some { OnErr result (values.now ≢ []) }
{
    'values: for value in values {
        map_signal(op, value, given)?;
    }
    Ok(())
}

/// Adds what a map by signals gives for a value that a signal gave.
fn map_signal(op: &mut MapBy, value: &Given, given: &mut Diffs<i64>) -> Result<(), NoMemory>
    requires within { value.now.place < length op.old.signals }
    requires short { length op.old.items ≤ 65536 }
    ensures given { OnOk result (given.new ≡ given.old ++ gives_by map_by_signal op.old value.now) }
    ensures state { OnOk result (op.new ≡ next_by op.old value.now) }
{
    op.step_signal(value.place, value.value, given)
}

/// What a switch gives where its chooser, child 0, or a signal of its bank, child place + 1, gives a value, if it gives one.
pub fn switched(op: &mut Switch, child: usize, value: Option<i64>) -> Option<i64>
    requires { child ≤ length op.old.parts }
    ensures value { result ≡ option_and_then (switch_gives op.old child) value }
    ensures state { op.new ≡ after_choice op.old child value }
{
    match value {
        Some(value) => op.step_signal(child, value),
        None => None,
    }
}

/// What a pick gives where its chooser gives a value, if it gives one: a newly chosen list whole.
pub fn chosen_anew(alloc: Global, op: &mut Pick, value: Option<i64>) -> Result<Diffs<i64>, NoMemory>
    ensures given { IfOk result (λ given. given ≡ given_list (pick_gives op.old) value) }
    ensures chooser { OnOk result (op.new.chooser ≡ unwrap_or value op.old.chooser) }
    ensures parts { OnOk result (op.new.parts ≡ op.old.parts) }
    ensures some { OnErr result (value ≢ None) }
{
    let mut given = Diffs::new(alloc);
    if let Some(value) = value {
        op.step_signal(0, value, &mut given)?;
    }
    Ok(given)
}

/// Adds the differences of the chosen list.
pub fn picked(
    op: &mut Pick,
    place: usize,
    diffs: &Diffs<i64>,
    given: Diffs<i64>,
) -> Result<Diffs<i64>, NoMemory>
    requires within { place < length op.old.parts }
    requires chosen { place ≡ chosen_place op.old.parts op.old.chooser }
    requires lawful { AreLawful (list_at op.old place) diffs.now }
    ensures given { IfOk result (λ all. all ≡ given ++ diffs.now) }
    ensures state { OnOk result (op.new ≡ after_picked op.old place diffs.now) }
    ensures some { OnErr result (diffs.now ≢ []) }
{
    let mut given = given;
    'diffs: for diff in diffs.as_slice() {
        pass_on(op, place, diff, &mut given)?;
    }
    Ok(given)
}

/// Adds a difference of the chosen list.
fn pass_on(
    op: &mut Pick,
    place: usize,
    diff: &VecDiff<i64>,
    given: &mut Diffs<i64>,
) -> Result<(), NoMemory>
    requires within { place < length op.old.parts }
    requires chosen { place ≡ chosen_place op.old.parts op.old.chooser }
    requires lawful { IsLawful diff.now (length (list_at op.old place)) }
    ensures given { OnOk result (given.new ≡ given.old ++ diff.now ∷ []) }
    ensures state { OnOk result (op.new ≡ bank_next op.old place diff.now) }
{
    op.step_bank(place, diff, given)
}
