ghost use Rattle.std.specs.Prelude.{◌≡◌, ◌∷◌, [], ◌<◌, length, map, IfOk, OnErr, OnOk};
ghost use Rattle.sig_hist.specs.Ways.{ways};
ghost use Rattle.sig_walk.specs.declared.walk.Mark.TheVariants.{Skipped};
ghost use Rattle.sig_walk.specs.Fetching.{IsTried, at_start};
ghost use Rattle.sig_walk.specs.Walking.{CanWalk, HasGone, HasNews, HasWalked, IsEntering, arrived, held_up, mark_of, marked, set_out, sources_in};

use crate::fetching::content_entered;
use sig_diff::{Content, NoMemory};
use sig_hist::{Entering, FetchError, Port, Version};
use std::alloc::{AllocError, Global};
use std::marker::Model;

/// What a walk showed of a leaf.
#[derive(Debug, Clone, Copy, PartialEq, Eq)]
pub enum Mark {
    /// It wasn't looked at, or its source was found held.
    Skipped,
    /// It has come to the end of a history that can go on.
    Open,
    /// It has come to the end of a closed history.
    Ended,
}

/// How far a view has come along the histories of its leaves' sources, and what its present walk has met.
/// Leaf i of the view is the port's leaf `first` + i.
#[derive(Debug, Drop)]
pub struct Walk {
    pub first: usize,
    /// How many entries of its source's history each leaf has passed.
    pub positions: Vec<u32>,
    pub marks: Vec<Mark>,
    /// Whether a position rose in this walk.
    pub moved: bool,
    /// The first held word that this walk found.
    pub held: Option<u64>,
}

impl Model for Walk {
    ghost use Rattle.sig_walk.specs.Walking.{Progress};

    ghost Value = { Progress };

    ghost view = { λ w. record { first = w.first; positions = w.positions.items; marks = w.marks.items; moved = w.moved; held = w.held } };
}

impl Walk {
    /// How many entries each leaf has passed.
    pub fn positions(&self) -> &[u32]
        ensures { result.now ≡ self.now.positions }
    {
        self.positions.as_slice()
    }

    /// Begins a walk.
    pub fn set_out(&mut self)
        ensures { self.new ≡ set_out self.old }
    {
        skip(self.marks.as_mut_slice());
        self.moved = false;
        self.held = None;
    }

    /// Looks at a leaf's source. Where there is more than the leaf has passed, the leaf goes to the end of the
    /// history, and what enters on the way is the answer; where the source is found held, it stays. Memory is wanting only where
    /// there is more.
    pub fn enter<P: Port>(&mut self, port: &mut P, leaf: usize) -> Result<Entering, NoMemory>
        requires can { CanWalk (P.state port.old) self.old }
        requires leaf { leaf < length self.old.positions }
        ensures same { P.is_same port.old port.new }
        ensures gone { HasGone (P.state port.old) (P.state port.new) self.old self.new }
        ensures walked { OnOk result (HasWalked (P.state port.old) (P.state port.new) self.old self.new (leaf ∷ [])) }
        ensures entering { IfOk result (IsEntering (ways (sources_in (P.state port.new) self.new) self.old.positions self.new.positions leaf)) }
        ensures news { OnErr result (HasNews (P.state port.new) self.old) }
    {
        let position = self.positions[leaf];
        let version = port.look(self.first + leaf);
        if version.count == position {
            self.stay(leaf, version);
            return Ok(Entering::Nothing);
        }
        match port.fetch(self.first + leaf, Some(position)) {
            Ok(fetched) => {
                self.arrive(leaf, fetched.version);
                Ok(fetched.entering)
            }
            Err(FetchError::Again { word }) => {
                self.meet(word);
                Ok(Entering::Nothing)
            }
            Err(FetchError::NoMemory) => Err(AllocError),
        }
    }

    /// A look showed the leaf at the end.
    fn stay(&mut self, leaf: usize, version: Version)
        requires { leaf < length self.old.marks }
        ensures { self.new ≡ marked self.old leaf version.closed }
    {
        self.marks[leaf] = mark_of(version);
    }

    /// The leaf has come to the end.
    fn arrive(&mut self, leaf: usize, version: Version)
        requires positions { leaf < length self.old.positions }
        requires marks { leaf < length self.old.marks }
        ensures { self.new ≡ arrived self.old leaf version }
    {
        self.positions[leaf] = version.count;
        self.marks[leaf] = mark_of(version);
        self.moved = true;
    }

    /// A source was found held. The walk keeps the first such word.
    fn meet(&mut self, word: u64)
        ensures { self.new ≡ held_up self.old word }
    {
        if self.held.is_none() {
            self.held = Some(word);
        }
    }
}

/// No leaf was looked at.
fn skip(marks: &mut [Mark])
    ensures { marks.new ≡ map (λ mark. Skipped) marks.old }
{
    'marks: for mark in marks {
        *mark = Mark::Skipped;
    }
}

fn mark_of(version: Version) -> Mark
    ensures { result ≡ mark_of version.closed }
{
    if version.closed {
        Mark::Ended
    } else {
        Mark::Open
    }
}

// ---- before the first row

impl Walk {
    /// Before the first walk: no leaf has passed an entry.
    pub fn new(alloc: Global, first: usize, count: usize) -> Result<Walk, NoMemory>
        ensures { IfOk result (λ walk. walk ≡ at_start first count) }
    {
        Ok(Walk {
            first,
            positions: vec![in alloc; 0; count]?,
            marks: vec![in alloc; Mark::Skipped; count]?,
            moved: false,
            held: None,
        })
    }

    /// Fetches a leaf from the start on: it goes to the end of the history, and the content there is the answer.
    /// Where the source is found held, the leaf stays, and there is none.
    pub fn fetch<P: Port>(&mut self, port: &mut P, leaf: usize) -> Result<Option<Content>, NoMemory>
        requires can { CanWalk (P.state port.old) self.old }
        requires leaf { leaf < length self.old.positions }
        ensures same { P.is_same port.old port.new }
        ensures gone { HasGone (P.state port.old) (P.state port.new) self.old self.new }
        ensures tried { IfOk result (IsTried (P.state port.old) (P.state port.new) self.old self.new leaf) }
    {
        match port.fetch(self.first + leaf, None) {
            Ok(fetched) => {
                let version = fetched.version;
                self.arrive(leaf, version);
                Ok(Some(content_entered(fetched.entering)))
            }
            Err(FetchError::Again { word }) => {
                self.meet(word);
                Ok(None)
            }
            Err(FetchError::NoMemory) => Err(AllocError),
        }
    }
}
