ghost use Rattle.std.specs.Prelude.{◌≡◌, IfOk};

use crate::expressions::{MapExpr, SigBank, SigExpr, VecBank, VecExpr, View};
use sig_diff::{Boxed, Items, NoMemory, TryCopy};
use std::alloc::Global;

impl TryCopy for SigExpr {
    fn copy(&self) -> Result<Self, NoMemory> {
        copy_signal(self)
    }
}

impl TryCopy for VecExpr {
    fn copy(&self) -> Result<Self, NoMemory> {
        copy_list(self)
    }
}

impl TryCopy for MapExpr {
    fn copy(&self) -> Result<Self, NoMemory> {
        copy_map(self)
    }
}

impl TryCopy for View {
    fn copy(&self) -> Result<Self, NoMemory> {
        Ok(match self {
            View::Signal(signal) => View::Signal(copy_signal(signal)?),
            View::Vector(list) => View::Vector(copy_list(list)?),
            View::Map(map) => View::Map(copy_map(map)?),
            View::Entries(map) => View::Entries(copy_map(map)?),
            View::Enumerate(list) => View::Enumerate(copy_list(list)?),
        })
    }
}

#[cycle(copies)]
fn copy_signal(signal: &SigExpr) -> Result<SigExpr, NoMemory>
    ensures { IfOk result (λ copy. copy ≡ signal.now) }
{
    Ok(match signal {
        SigExpr::Cell(source) => SigExpr::Cell(*source),
        SigExpr::Map(fun, of) => SigExpr::Map(*fun, copy_boxed_signal(of)?),
        SigExpr::Dedupe(of) => SigExpr::Dedupe(copy_boxed_signal(of)?),
        SigExpr::Switch(of, bank) => SigExpr::Switch(
            copy_boxed_signal(of)?,
            copy_signals(bank.as_slice(), bank.alloc())?,
        ),
        SigExpr::Len(of) => SigExpr::Len(copy_boxed_list(of)?),
        SigExpr::Sum(of) => SigExpr::Sum(copy_boxed_list(of)?),
        SigExpr::Key(key, default, of) => SigExpr::Key(*key, *default, copy_boxed_map(of)?),
    })
}

#[cycle(copies)]
fn copy_list(list: &VecExpr) -> Result<VecExpr, NoMemory>
    ensures { IfOk result (λ copy. copy ≡ list.now) }
{
    Ok(match list {
        VecExpr::Vector(source) => VecExpr::Vector(*source),
        VecExpr::Map(fun, of) => VecExpr::Map(*fun, copy_boxed_list(of)?),
        VecExpr::Filter(pred, of) => VecExpr::Filter(*pred, copy_boxed_list(of)?),
        VecExpr::FilterBy(of, bank) => VecExpr::FilterBy(
            copy_boxed_list(of)?,
            copy_signals(bank.as_slice(), bank.alloc())?,
        ),
        VecExpr::MapBy(of, bank) => VecExpr::MapBy(
            copy_boxed_list(of)?,
            copy_signals(bank.as_slice(), bank.alloc())?,
        ),
        VecExpr::Sorted(fun, of) => VecExpr::Sorted(*fun, copy_boxed_list(of)?),
        VecExpr::Concat(first, second) => VecExpr::Concat(
            copy_boxed_list(first)?,
            copy_boxed_list(second)?,
        ),
        VecExpr::Flatten(of, bank) => VecExpr::Flatten(
            copy_boxed_list(of)?,
            copy_lists(bank.as_slice(), bank.alloc())?,
        ),
        VecExpr::Pick(of, bank) => VecExpr::Pick(
            copy_boxed_signal(of)?,
            copy_lists(bank.as_slice(), bank.alloc())?,
        ),
        VecExpr::Keys(of) => VecExpr::Keys(copy_boxed_map(of)?),
        VecExpr::Values(of) => VecExpr::Values(copy_boxed_map(of)?),
    })
}

#[cycle(copies)]
fn copy_boxed_signal(signal: &Boxed<SigExpr>) -> Result<Boxed<SigExpr>, NoMemory>
    ensures { IfOk result (λ copy. copy ≡ signal.now) }
{
    Boxed::new(signal.alloc(), copy_signal(signal.get())?)
}

#[cycle(copies)]
fn copy_boxed_list(list: &Boxed<VecExpr>) -> Result<Boxed<VecExpr>, NoMemory>
    ensures { IfOk result (λ copy. copy ≡ list.now) }
{
    Boxed::new(list.alloc(), copy_list(list.get())?)
}

#[cycle(copies)]
fn copy_signals(bank: &[SigExpr], alloc: Global) -> Result<SigBank, NoMemory>
    ensures { IfOk result (λ copy. copy ≡ bank.now) }
{
    let mut copies = Items::new(alloc);
    'signals: for signal in bank {
        copies.push(copy_signal(signal)?)?;
    }
    Ok(copies)
}

#[cycle(copies)]
fn copy_lists(bank: &[VecExpr], alloc: Global) -> Result<VecBank, NoMemory>
    ensures { IfOk result (λ copy. copy ≡ bank.now) }
{
    let mut copies = Items::new(alloc);
    'lists: for list in bank {
        copies.push(copy_list(list)?)?;
    }
    Ok(copies)
}

#[cycle(map_copies)]
fn copy_map(map: &MapExpr) -> Result<MapExpr, NoMemory>
    ensures { IfOk result (λ copy. copy ≡ map.now) }
{
    Ok(match map {
        MapExpr::Map(source) => MapExpr::Map(*source),
        MapExpr::MapValue(fun, of) => MapExpr::MapValue(*fun, copy_boxed_map(of)?),
    })
}

#[cycle(map_copies)]
fn copy_boxed_map(map: &Boxed<MapExpr>) -> Result<Boxed<MapExpr>, NoMemory>
    ensures { IfOk result (λ copy. copy ≡ map.now) }
{
    Boxed::new(map.alloc(), copy_map(map.get())?)
}
