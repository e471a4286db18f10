ghost use Rattle.std.specs.Prelude.{◌≡◌};
ghost use Rattle.serde_json.specs.View.{view};
ghost use Rattle.sig_script.specs.Finding.{Finds};
ghost use Rattle.sig_script.specs.Names.{is_source, known_fault, meaning};

use crate::fields::text_in;
use crate::grammar::{Class, Meaning, Part};
use crate::paths::{Stop, here_unless};
use crate::walks::Visitor;
use serde_json::Value;
use sig_diff::Kind;
use std::alloc::Global;

/// What knows the meanings of names.
pub trait Lookup {
    ghost use Rattle.std.specs.Prelude.{ℕ, List};
    ghost use Rattle.sig_script.specs.declared.grammar.Meaning.{Meaning};

    ghost names: { Self → List (List ℕ × Meaning) };

    /// What a name stands for.
    fn meaning(&self, name: &[u8]) -> Option<Meaning>
        ensures { result ≡ meaning (names self.now) name.now };
}

/// Whether the names of an expression stand for sources of the kinds that are asked.
#[derive(Drop)]
pub struct KnownNames<'n, L> {
    pub names: &'n L,
}

impl<L: Lookup> Visitor for KnownNames<'_, L> {
    ghost use Rattle.sig_script.specs.Names.{known_names};

    ghost visit = { λ known. known_names (L.names known.names.now) };

    fn refuses(&self, _depth: u32, _class: Class, _value: &Value) -> bool {
        false
    }

    fn refuses_list(&self, _part: Part, _value: &Value) -> bool {
        false
    }

    fn fault(&self, alloc: Global, part: Part, value: &Value) -> Result<(), Stop> {
        match part {
            Part::Name(kind) => source_fault(alloc, self.names, kind, value),
            _ => Ok(()),
        }
    }
}

/// The fault of a name that should stand for a source of a kind.
fn source_fault<L: Lookup>(alloc: Global, names: &L, kind: Kind, value: &Value) -> Result<(), Stop>
    ensures { Finds result (known_fault (L.names names.now) (is_source kind) (view value.now)) }
{
    match names.meaning(text_in(value)) {
        Some(meaning) => here_unless(alloc, is_source(kind, meaning)),
        None => here_unless(alloc, false),
    }
}

/// Whether a name may stand where a source of a kind is asked.
pub fn is_source(kind: Kind, meaning: Meaning) -> bool
    ensures { result ≡ is_source kind meaning }
{
    match meaning {
        Meaning::Source(_, other) => kind == other,
        Meaning::Share(_) => kind == Kind::Cell,
        Meaning::Writer(_) | Meaning::View(_) => false,
    }
}
