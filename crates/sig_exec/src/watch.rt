//! All that is wanted to watch views over sources that threads edit.
ghost use Rattle.std.specs.Prelude.{◌≡◌, ◌^◌, ◌<◌, length, map, slice_get, IfErr, IfOk, Some};
ghost use Rattle.sig_exec.specs.Views.{IsWatch, IsNoWatch};

use crate::exec::Exec;
use crate::views::hub_plan;
use sig_diff::{Items, NoMemory};
use sig_expr::{Caps, View, fits};
use sig_hist::{Plans, SourcePlan};
use sig_hub::{Hub, Passes, PollPass, WriterPasses};
use std::alloc::Global;
use thiserror::Error;

/// A hub for views that one poller polls, with the passes and the executor.
#[derive(Drop)]
pub struct Watch {
    pub hub: Hub,
    /// In the order of their numbers.
    pub writers: WriterPasses,
    pub pass: PollPass,
    /// Its jobs are the views, in their order.
    pub exec: Exec,
}

/// Why views can't be watched.
#[derive(Debug, Clone, Copy, PartialEq, Eq, Error)]
pub enum WatchError {
    /// A source's plan isn't sound, a view names a source that there isn't, or there is no source.
    #[error("the plan isn't sound")]
    Unsound,
    /// A list or a map that is a part of a view can get longer than 65,536.
    #[error("a view can get too long")]
    TooLong,
    #[error("memory was wanting")]
    NoMemory,
}

impl From<NoMemory> for WatchError {
    ghost use Rattle.std.specs.Prelude.{◌≡◌};
    ghost use Rattle.sig_exec.specs.declared.watch.WatchError.TheVariants.{NoMemory};

    ghost from_gives = { λ _ error. error ≡ NoMemory };

    fn from(_error: NoMemory) -> Self {
        WatchError::NoMemory
    }
}

impl Watch {
    /// A hub of these sources, which so many writers edit, for views, with one poller.
    pub fn new(
        alloc: Global,
        sources: Plans,
        writers: u32,
        views: &[View],
    ) -> Result<Watch, WatchError>
        requires few { length views.now < 2 ^ 32 }
        ensures ok { IfOk result (IsWatch sources writers views.now) }
        ensures err { IfErr result (IsNoWatch sources writers views.now) }
    {
        let caps = caps_of(alloc, sources.as_slice())?;
        if !views.iter().all(|view| fits(view, &caps)) {
            return Err(WatchError::TooLong);
        }
        let plan = hub_plan(alloc, sources, writers, 1, views)?;
        if !plan.is_sound() {
            return Err(WatchError::Unsound);
        }
        let exec = Exec::of_views(alloc, views, &caps, 1, 0)?;
        let (hub, passes) = Hub::new(alloc, plan)?;
        Ok(Watch::of(hub, passes, exec))
    }

    /// With the pass of the one poller.
    fn of(hub: Hub, passes: Passes, exec: Exec) -> Watch
        requires { length passes.pollers ≡ 1 }
        ensures hub { result.hub ≡ hub }
        ensures writers { result.writers ≡ passes.writers }
        ensures pass { slice_get passes.pollers 0 ≡ Some result.pass }
        ensures exec { result.exec ≡ exec }
    {
        let Passes {
            writers,
            mut pollers,
        } = passes;
        match pollers.pop() {
            Some(pass) => Watch {
                hub,
                writers,
                pass,
                exec,
            },
            None => unreachable!(),
        }
    }
}

/// The cap of each source.
fn caps_of(alloc: Global, sources: &[SourcePlan]) -> Result<Caps, NoMemory>
    ensures { IfOk result (λ caps. caps ≡ map (λ plan. plan.cap) sources.now) }
{
    let mut caps = Vec::with_capacity(alloc, sources.len())?;
    'sources: for plan in sources {
        caps.push(plan.cap)?;
    }
    Ok(Items::from_vec(caps))
}
