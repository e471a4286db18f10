ghost use Rattle.std.specs.Prelude.{◌≡◌, ◌<◌, length, true};
ghost use Rattle.sig_hub.specs.Passes.{is_in};

use crate::stations::Station;
use sig_diff::Items;
use std::marker::Model;

/// What a writer edits the hub's sources with.
#[derive(Drop)]
pub struct WriterPass {
    pub(crate) station: Station,
    /// The sources that it writes and hasn't left, the greatest first.
    pub(crate) sources: Vec<usize>,
}

impl Model for WriterPass {
    ghost use Rattle.sig_hub.specs.Passes.{Pass, AreThoseToLeave};

    ghost Value = { Pass };

    ghost view = { λ pass. pass.station };

    ghost invariant = { λ pass. AreThoseToLeave pass.station pass.sources.items };
}

impl WriterPass {
    /// Whether it may edit a source: that is one of the hub's, it is one of the source's writers, and it hasn't left.
    pub fn is_in(&self, source: usize) -> bool
        ensures is_in { result ≡ is_in self.now source }
        ensures within { result ≡ true → source < length self.now.hub.layout.plans }
    {
        self.sources.as_slice().contains(&source)
    }
}

pub type WriterPasses = Items<WriterPass>;

/// What a poller looks at the hub's sources with. With its hub it is a port, `Polling`.
#[derive(Drop)]
pub struct PollPass {
    pub(crate) station: Station,
}

impl Model for PollPass {
    ghost use Rattle.sig_hub.specs.Passes.{Pass};

    ghost Value = { Pass };

    ghost view = { λ pass. pass.station };
}

pub type PollPasses = Items<PollPass>;

/// A writer's pass that has left all its sources. It keeps the writer's own entries.
#[derive(Drop)]
pub struct Left {
    pub(crate) station: Station,
}

impl Model for Left {
    ghost use Rattle.sig_hub.specs.Passes.{Pass};

    ghost Value = { Pass };

    ghost view = { λ left. left.station };
}

pub type Lefts = Items<Left>;
