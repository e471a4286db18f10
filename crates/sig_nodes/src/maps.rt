ghost use Rattle.std.specs.Prelude.{◌≡◌, ◌≢◌, ◌≤◌, [], length, IfOk, OnErr, OnOk};
ghost use Rattle.std.specs.List.{flat_map};
ghost use Rattle.sig_diff.specs.Replaying.{MapAreLawful, MapStaysShort, map_replayed};
ghost use Rattle.sig_expr.specs.Functions.{image};
ghost use Rattle.sig_maps.specs.Tables.{entries_gives, keys_gives, map_value_gives, values_gives};
ghost use Rattle.sig_rows.specs.Flow.{of_map};
ghost use Rattle.sig_nodes.specs.Nodes.{map_ops};
ghost use Rattle.sig_nodes.specs.Steps.{MapGone, MapMayGo};
ghost use Rattle.sig_walk.specs.Walking.{HasGone, HasNews, map_entered};

use crate::nodes::MapNode;
use sig_diff::{Diffs, MapDiffs, NoMemory};
use sig_expr::Fun;
use sig_hist::{Entering, Port};
use sig_maps::{EntriesOp, KeysOp, MapValue, ValuesOp};
use sig_walk::Walk;
use std::alloc::Global;

impl MapNode {
    /// Takes its leaf along, and gives what the map gives for that.
    pub fn step<P: Port>(
        &mut self,
        alloc: Global,
        port: &mut P,
        walk: &mut Walk,
    ) -> Result<MapDiffs<i64>, NoMemory>
        requires may_go { MapMayGo (P.state port.old) walk.old (map_ops self.old) }
        ensures same { P.is_same port.old port.new }
        ensures gone { HasGone (P.state port.old) (P.state port.new) walk.old walk.new }
        ensures taken { IfOk result (MapGone (P.state port.old) (P.state port.new) walk.old walk.new (map_ops self.old)) }
        ensures news { OnErr result (HasNews (P.state port.new) walk.old) }
        ensures tree { map_ops self.new ≡ map_ops self.old }
    {
        match self {
            MapNode::Source(leaf) => Ok(map_entered(alloc, walk.enter(port, *leaf)?)),
            MapNode::Value(op, of) => {
                let diffs = of.step(alloc, port, walk)?;
                mapped(alloc, op, &diffs)
            }
        }
    }
}

/// What a function at the values of a map gives for differences of the map.
fn mapped(
    alloc: Global,
    op: &mut MapValue<Fun>,
    diffs: &MapDiffs<i64>,
) -> Result<MapDiffs<i64>, NoMemory>
    ensures given { IfOk result (λ given. given ≡ flat_map (map_value_gives (image op.old)) diffs.now) }
    ensures state { op.new ≡ op.old }
    ensures some { OnErr result (diffs.now ≢ []) }
{
    let mut given = MapDiffs::new(alloc);
    'diffs: for diff in diffs.as_slice() {
        op.step(diff, &mut given)?;
    }
    Ok(given)
}

/// The differences of a map among what enters.
fn map_entered(alloc: Global, entering: Entering) -> MapDiffs<i64>
    ensures { result ≡ map_entered entering }
{
    match entering {
        Entering::Map(diffs) => diffs,
        _ => MapDiffs::new(alloc),
    }
}

/// What the keys of a map give for differences that it takes.
pub fn keys(alloc: Global, op: &mut KeysOp, diffs: &MapDiffs<i64>) -> Result<Diffs<i64>, NoMemory>
    requires lawful { MapAreLawful op.old diffs.now }
    requires short_map { length op.old ≤ 65536 }
    requires short { MapStaysShort 65536 op.old diffs.now }
    ensures given { IfOk result (λ given. given ≡ of_map keys_gives op.old diffs.now) }
    ensures state { OnOk result (op.new ≡ map_replayed op.old diffs.now) }
    ensures some { OnErr result (diffs.now ≢ []) }
{
    let mut given = Diffs::new(alloc);
    'diffs: for diff in diffs.as_slice() {
        op.step(diff, &mut given)?;
    }
    Ok(given)
}

/// What the values of a map give for differences that it takes.
pub fn values(
    alloc: Global,
    op: &mut ValuesOp,
    diffs: &MapDiffs<i64>,
) -> Result<Diffs<i64>, NoMemory>
    requires lawful { MapAreLawful op.old diffs.now }
    requires short_map { length op.old ≤ 65536 }
    requires short { MapStaysShort 65536 op.old diffs.now }
    ensures given { IfOk result (λ given. given ≡ of_map values_gives op.old diffs.now) }
    ensures state { OnOk result (op.new ≡ map_replayed op.old diffs.now) }
    ensures some { OnErr result (diffs.now ≢ []) }
{
    let mut given = Diffs::new(alloc);
    'diffs: for diff in diffs.as_slice() {
        op.step(diff, &mut given)?;
    }
    Ok(given)
}

/// What the entries of a map give as a list for differences that it takes.
pub fn pairs(
    alloc: Global,
    op: &mut EntriesOp,
    diffs: &MapDiffs<i64>,
) -> Result<Diffs<(i64, i64)>, NoMemory>
    requires lawful { MapAreLawful op.old diffs.now }
    requires short_map { length op.old ≤ 65536 }
    requires short { MapStaysShort 65536 op.old diffs.now }
    ensures given { IfOk result (λ given. given ≡ of_map entries_gives op.old diffs.now) }
    ensures state { OnOk result (op.new ≡ map_replayed op.old diffs.now) }
    ensures some { OnErr result (diffs.now ≢ []) }
{
    let mut given = Diffs::new(alloc);
    'diffs: for diff in diffs.as_slice() {
        op.step(diff, &mut given)?;
    }
    Ok(given)
}
