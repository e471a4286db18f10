ghost use Rattle.std.specs.Prelude.{◌≡◌, ◌≤◌, true, IfSome, IfOk, IfErr};
ghost use Rattle.sig_hist.specs.Ports.{IsSoundPort, IsSight, IsFetch, IsFetchRefusal, IsRest, armed, looked, is_open};

use sig_diff::{Diffs, MapDiffs};
use thiserror::Error;

/// How many entries the history of a source has, and whether all its writers have left.
#[derive(Debug, Clone, Copy, PartialEq, Eq)]
pub struct Version {
    pub count: u32,
    pub closed: bool,
}

/// What enters a leaf as it goes on along the history of its source.
#[derive(Debug, Drop)]
pub enum Entering {
    /// No number was given to the cell.
    Nothing,
    /// The cell's number.
    Value(i64),
    Vector(Diffs<i64>),
    Map(MapDiffs<i64>),
}

/// The answer to a fetch: what was seen of the source, and what enters up to there.
#[derive(Debug, Drop)]
pub struct Fetched {
    pub version: Version,
    pub entering: Entering,
}

/// Why a leaf wasn't fetched. It can be fetched again.
#[derive(Debug, Clone, Copy, PartialEq, Eq, Error)]
pub enum FetchError {
    /// Another had the source's turn: the word was found held.
    #[error("the source is held by word {word}")]
    Again { word: u64 },
    #[error("memory was wanting")]
    NoMemory,
}

/// The answer to a rest.
#[derive(Debug, Drop)]
pub enum Rested<T> {
    /// The task waits, and its token is spent.
    Waiting,
    /// There is more than the caller knows of. The token comes back.
    News { version: Version, told: T },
}

/// How a leaf stands to the bell of its source.
#[derive(Debug, Clone, Copy, PartialEq, Eq)]
pub enum Condition {
    /// Nothing is said of its bell.
    Idle,
    /// Its bell was set, and its source wasn't looked at since.
    Armed,
    /// Its bell was set, and then its source showed this version.
    Checked(Version),
    /// Its task waits, since its source showed this version after its bell was set.
    Waiting(Version),
}

/// A held word that a fetch found, and its source.
#[derive(Debug, Clone, Copy, PartialEq, Eq)]
pub struct Met {
    pub source: usize,
    pub word: u64,
}

/// What a view polls: the sources of its leaves, each with its history as far as the port has seen it.
///
/// What a port has seen only grows, and no clause says that it is all that there is: between two calls others may
/// edit the sources. A view that waits sets the bell of each leaf that it awaits, looks at its source after
/// that, and rests: whoever then edits a source finds the bell.
pub trait Port {
    ghost use Rattle.std.specs.Prelude.{ℕ};
    ghost use Rattle.sig_hist.specs.Ports.{PortState};

    /// What a task is polled with: who has one was told that there may be news.
    type Told: Drop;

    /// What the port knows.
    ghost state: { Self → PortState };
    /// The two are one port at two moments.
    ghost is_same: { Self → Self → Type 0 };
    /// The token is of the task.
    ghost is_told: { Self → Self.Told → ℕ → Type 0 };

    /// What the leaf's source shows now. No entry is seen by it.
    fn look(&mut self, leaf: usize) -> Version
        requires { (state self.old).is_own leaf ≡ true }
        ensures sight { IsSight (state self.old) leaf result }
        ensures state { state self.new ≡ looked (state self.old) ((state self.old).source leaf) result }
        ensures sound { IsSoundPort (state self.new) }
        ensures same { is_same self.old self.new };

    /// What enters the leaf from a position to the end of what its source shows now: all of that is seen.
    fn fetch(&mut self, leaf: usize, from: Option<u32>) -> Result<Fetched, FetchError>
        requires own { (state self.old).is_own leaf ≡ true }
        requires from { IfSome from (λ position. position ≤ (state self.old).count ((state self.old).source leaf)) }
        ensures ok { IfOk result (IsFetch (state self.old) (state self.new) leaf from) }
        ensures err { IfErr result (IsFetchRefusal (state self.old) (state self.new) leaf) }
        ensures sound { IsSoundPort (state self.new) }
        ensures same { is_same self.old self.new };

    /// Sets the leaf's bell.
    fn arm(&mut self, leaf: usize)
        requires { (state self.old).is_own leaf ≡ true }
        ensures state { state self.new ≡ armed (state self.old) leaf }
        ensures sound { IsSoundPort (state self.new) }
        ensures same { is_same self.old self.new };

    /// Ends a poll that found nothing, by one last look at the leaf's source: where that shows the count that
    /// the caller knows, and isn't closed, the leaf's task waits.
    fn rest(&mut self, leaf: usize, at: u32, told: Self::Told) -> Rested<Self::Told>
        requires own { (state self.old).is_own leaf ≡ true }
        requires open { is_open ((state self.old).condition leaf) ≡ true }
        requires told { is_told self.old told ((state self.old).task leaf) }
        ensures rest { IsRest (state self.old) (state self.new) leaf at told result }
        ensures sound { IsSoundPort (state self.new) }
        ensures same { is_same self.old self.new };

    ghost same_now: { (port : Self) → is_same port port };

    ghost same_later: { (port next last : Self) → is_same port next → is_same next last → is_same port last };

    ghost told_later: { (port next : Self) (told : Self.Told) (task : ℕ) → is_same port next → is_told port told task → is_told next told task };
}
