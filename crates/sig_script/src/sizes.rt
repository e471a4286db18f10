ghost use Rattle.std.specs.Prelude.{◌≡◌, ℕ, map};
ghost use Rattle.sig_expr.specs.Bounds.{cap_of};
ghost use Rattle.sig_expr.specs.Shapes.{map_tree, sig_tree, sig_trees, vec_tree, vec_trees};
ghost use Rattle.sig_script.specs.Finding.{Finds};
ghost use Rattle.sig_script.specs.Growths.{clipped};
ghost use Rattle.sig_script.specs.Parts.{vec_parts};
ghost use Rattle.sig_script.specs.Rooms.{source_rooms};
ghost use Rattle.sig_script.specs.Sizes.{is_short, map_size, share_size, shares_size, sig_size, sigs_size, size_fault, vec_size, vecs_size, view_size, views_size};

use crate::paths::{Stop, below, below_place, here_unless};
use crate::rooms::{caps, share_room, source_rooms};
use crate::types::{Script, ViewDef};
use sig_expr::{Caps, MOST_SHOWN, MapExpr, SigExpr, VecExpr, View};
use std::alloc::Global;

/// The most entries that a share's history may have.
const MOST_ROOM: u64 = 1_048_576;

/// The first share or view that can get too big.
pub fn size_fault(alloc: Global, script: &Script) -> Result<(), Stop>
    ensures { Finds result (size_fault script.now) }
{
    let caps = caps(alloc, script)?;
    below(alloc, "shares", shares_size(alloc, &caps, script))?;
    below(
        alloc,
        "views",
        views_size(alloc, &caps, script.views.as_slice()),
    )
}

fn shares_size(alloc: Global, caps: &Caps, script: &Script) -> Result<(), Stop>
    ensures { let script = script.now in Finds result
        (shares_size (cap_of caps.now) (source_rooms script.writers 0 script.sources) 0 script.shares) }
{
    let mut rooms = source_rooms(alloc, script)?;
    'shares: for (place, share) in script.shares.as_slice().iter().enumerate() {
        let room = share_room(alloc, rooms.as_slice(), &share.signal)?;
        below_place(alloc, place, share_size(alloc, caps, room, &share.signal))?;
        rooms.push(room)?;
    }
    Ok(())
}

fn share_size(alloc: Global, caps: &Caps, room: u64, signal: &SigExpr) -> Result<(), Stop>
    ensures { (exact : ℕ) → room ≡ clipped exact
        → Finds result (share_size (cap_of caps.now) exact signal.now) }
{
    here_unless(alloc, room <= MOST_ROOM)?;
    below(alloc, "signal", signal_size(alloc, caps, signal))
}

fn views_size(alloc: Global, caps: &Caps, views: &[ViewDef]) -> Result<(), Stop>
    ensures { Finds result (views_size (cap_of caps.now) 0 views.now) }
{
    'views: for (place, view) in views.iter().enumerate() {
        below_place(alloc, place, view_size(alloc, caps, &view.view))?;
    }
    Ok(())
}

fn view_size(alloc: Global, caps: &Caps, view: &View) -> Result<(), Stop>
    ensures { Finds result (view_size (cap_of caps.now) view.now) }
{
    match view {
        View::Signal(signal) => below(alloc, "signal", signal_size(alloc, caps, signal)),
        View::Vector(list) => below(alloc, "vector", list_size(alloc, caps, list)),
        View::Map(map) => below(alloc, "map", map_size(alloc, caps, map)),
        View::Entries(map) => below(alloc, "entries", map_size(alloc, caps, map)),
        View::Enumerate(list) => below(alloc, "enumerate", list_size(alloc, caps, list)),
    }
}

fn is_short(alloc: Global, bound: u64) -> Result<(), Stop>
    ensures { Finds result (is_short bound) }
{
    here_unless(alloc, bound <= MOST_SHOWN)
}

#[cycle(map_sizes)]
fn map_size(alloc: Global, caps: &Caps, map: &MapExpr) -> Result<(), Stop>
    ensures { Finds result (map_size (cap_of caps.now) (map_tree map.now)) }
{
    is_short(alloc, map.bound(caps))?;
    match map {
        MapExpr::Map(_) => Ok(()),
        MapExpr::MapValue(_, of) => below(alloc, "of", map_size(alloc, caps, of.get())),
    }
}

#[cycle(sizes)]
fn signal_size(alloc: Global, caps: &Caps, signal: &SigExpr) -> Result<(), Stop>
    ensures { Finds result (sig_size (cap_of caps.now) (sig_tree signal.now)) }
{
    match signal {
        SigExpr::Cell(_) => Ok(()),
        SigExpr::Map(_, of) => below(alloc, "of", signal_size(alloc, caps, of.get())),
        SigExpr::Dedupe(of) => below(alloc, "dedupe", signal_size(alloc, caps, of.get())),
        SigExpr::Switch(of, bank) => {
            below(alloc, "switch", signal_size(alloc, caps, of.get()))?;
            below(alloc, "bank", signals_size(alloc, caps, bank.as_slice()))
        }
        SigExpr::Len(of) => below(alloc, "len", list_size(alloc, caps, of.get())),
        SigExpr::Sum(of) => below(alloc, "sum", list_size(alloc, caps, of.get())),
        SigExpr::Key(_, _, of) => below(alloc, "of", map_size(alloc, caps, of.get())),
    }
}

/// A list's own bound is looked at before its parts.
#[cycle(sizes)]
#[tactic(auto, using(crate::proofs::Sizing::own_first))]
fn list_size(alloc: Global, caps: &Caps, list: &VecExpr) -> Result<(), Stop>
    ensures { Finds result (vec_size (cap_of caps.now) (vec_tree list.now)) }
{
    is_short(alloc, list.bound(caps))?;
    list_parts(alloc, caps, list)
}

#[cycle(sizes)]
fn list_parts(alloc: Global, caps: &Caps, list: &VecExpr) -> Result<(), Stop>
    ensures { Finds result (vec_parts (cap_of caps.now) (vec_tree list.now)) }
{
    match list {
        VecExpr::Vector(_) => Ok(()),
        VecExpr::Map(_, of) | VecExpr::Filter(_, of) | VecExpr::Sorted(_, of) => {
            below(alloc, "of", list_size(alloc, caps, of.get()))
        }
        VecExpr::FilterBy(of, bank) => {
            below(alloc, "of", list_size(alloc, caps, of.get()))?;
            below(
                alloc,
                "filter_by",
                signals_size(alloc, caps, bank.as_slice()),
            )
        }
        VecExpr::MapBy(of, bank) => {
            below(alloc, "of", list_size(alloc, caps, of.get()))?;
            below(alloc, "map_by", signals_size(alloc, caps, bank.as_slice()))
        }
        VecExpr::Concat(first, second) => {
            below(
                alloc,
                "concat",
                below(alloc, "0", list_size(alloc, caps, first.get())),
            )?;
            below(
                alloc,
                "concat",
                below(alloc, "1", list_size(alloc, caps, second.get())),
            )
        }
        VecExpr::Flatten(of, bank) => {
            below(alloc, "flatten", list_size(alloc, caps, of.get()))?;
            below(alloc, "bank", lists_size(alloc, caps, bank.as_slice()))
        }
        VecExpr::Pick(of, bank) => {
            below(alloc, "pick", signal_size(alloc, caps, of.get()))?;
            below(alloc, "bank", lists_size(alloc, caps, bank.as_slice()))
        }
        VecExpr::Keys(of) => below(alloc, "keys", map_size(alloc, caps, of.get())),
        VecExpr::Values(of) => below(alloc, "values", map_size(alloc, caps, of.get())),
    }
}

#[cycle(sizes)]
fn signals_size(alloc: Global, caps: &Caps, bank: &[SigExpr]) -> Result<(), Stop>
    ensures { Finds result (sigs_size (cap_of caps.now) 0 (sig_trees (map sig_tree bank.now))) }
{
    'signals: for (place, signal) in bank.iter().enumerate() {
        below_place(alloc, place, signal_size(alloc, caps, signal))?;
    }
    Ok(())
}

#[cycle(sizes)]
fn lists_size(alloc: Global, caps: &Caps, bank: &[VecExpr]) -> Result<(), Stop>
    ensures { Finds result (vecs_size (cap_of caps.now) 0 (vec_trees (map vec_tree bank.now))) }
{
    'lists: for (place, list) in bank.iter().enumerate() {
        below_place(alloc, place, list_size(alloc, caps, list))?;
    }
    Ok(())
}
