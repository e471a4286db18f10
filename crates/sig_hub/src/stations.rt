ghost use Rattle.std.specs.Prelude.{◌≡◌};
ghost use Rattle.sig_hub.specs.Seats.{Rests, at_seat, at_pass};

use crate::turns::{HubFlags, HubSeat};
use std::marker::Model;
use std::snapshot::Snapshot;

/// A seat at the machine of a hub, between two calls: it has no turn, nobody's bell to ring and nobody to tell.
#[derive(Drop)]
pub struct Station {
    pub of: Snapshot<HubFlags>,
    pub seat: HubSeat,
    pub number: u32,
}

impl Model for Station {
    ghost use Rattle.sig_hub.specs.Passes.{Pass, pass_of, IsStation};

    ghost Value = { Pass };

    ghost view = { λ station. pass_of station.of.value station.seat };

    ghost invariant = { λ station. IsStation station.of.value station.seat station.number };
}

impl Station {
    /// Its seat alone.
    pub fn into_seat(self) -> HubSeat
        ensures same { at_seat result ≡ at_pass self }
        ensures rests { Rests result }
    {
        let Station { seat, .. } = self;
        seat
    }
}
