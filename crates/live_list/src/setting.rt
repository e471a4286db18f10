//! What is watched: prices, a fee, and a view of both.
ghost use Rattle.std.specs.Prelude.{◌≡◌, ◌∷◌, [], IfOk};

use sig_diff::{Boxed, Content, Items, NoMemory};
use sig_expr::{Fun, Pred, SigBank, SigExpr, Test, VecExpr, View};
use sig_hist::{Allowance, Plans, SourcePlan};
use std::alloc::Global;

/// The sources by their numbers.
pub const PRICES: usize = 0;

pub const FEE: usize = 1;

/// The list of one value.
pub fn one<T: Drop>(alloc: Global, value: T) -> Result<Items<T>, NoMemory>
    ensures { IfOk result (λ list. list ≡ value ∷ []) }
{
    let mut list = Items::new(alloc);
    list.push(value)?;
    Ok(list)
}

/// The prices 12 and 30, and a fee of 5. A writer may edit each eight times.
pub fn sources(alloc: Global) -> Result<Plans, NoMemory> {
    let mut prices = one(alloc, 12)?;
    prices.push(30)?;
    let mut plans = one(alloc, plan(alloc, Content::Vector(prices), 10)?)?;
    plans.push(plan(alloc, Content::Cell(5), 1)?)?;
    Ok(plans)
}

fn plan(alloc: Global, start: Content, cap: u32) -> Result<SourcePlan, NoMemory> {
    let allowance = Allowance {
        writer: 0,
        edits: 8,
    };
    Ok(SourcePlan {
        start,
        cap,
        allow: one(alloc, allowance)?,
    })
}

/// The prices with the fee that are at least 20, in order.
pub fn view(alloc: Global) -> Result<View, NoMemory> {
    let dear = Boxed::new(alloc, dear(alloc)?)?;
    Ok(View::Vector(VecExpr::Sorted(Fun::Add(0), dear)))
}

fn dear(alloc: Global) -> Result<VecExpr, NoMemory> {
    let at_least = Pred {
        flip: false,
        test: Test::Ge(20),
    };
    let with_fee = Boxed::new(alloc, with_fee(alloc)?)?;
    Ok(VecExpr::Filter(at_least, with_fee))
}

fn with_fee(alloc: Global) -> Result<VecExpr, NoMemory> {
    let prices = Boxed::new(alloc, VecExpr::Vector(PRICES))?;
    Ok(VecExpr::MapBy(prices, fees(alloc)?))
}

fn fees(alloc: Global) -> Result<SigBank, NoMemory> {
    one(alloc, SigExpr::Cell(FEE))
}
