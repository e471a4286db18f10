ghost use Rattle.std.specs.Prelude.{◌≡◌, ℤ, List, None};
ghost use Rattle.sig_diff.specs.Entries.{value_at};
ghost use Rattle.sig_diff.specs.Replaying.{map_replayed};
ghost use Rattle.sig_maps.specs.Keys.{key_shows, value_after, value_next};
ghost use Rattle.sig_ops.specs.Signals.{given};

use sig_diff::{Entries, MapDiff, MapDiffs};
use std::marker::Model;

/// The value at a key of a map, or a default where the map has none, as a signal. It takes no memory.
///
/// At the key 2, with the default 0, it shows the map of 1 to 10 as 0. For the insertion of 20 at 2 it then gives 20, and for one at 3 nothing.
#[derive(Debug, Drop)]
pub struct KeyOf {
    key: i64,
    default: i64,
    value: Option<i64>,
}

impl Model for KeyOf {
    ghost use Rattle.sig_maps.specs.Keys.{KeyView};

    ghost Value = { KeyView };

    ghost view = { λ op. record { key = op.key; default = op.default; value = op.value } };
}

impl KeyOf {
    /// The signal of a key, not yet started.
    pub fn new(key: i64, default: i64) -> KeyOf
        ensures key { result.key ≡ key }
        ensures default { result.default ≡ default }
        ensures value { result.value ≡ None }
    {
        KeyOf {
            key,
            default,
            value: None,
        }
    }

    /// The value at the key, for the map from then on.
    pub fn start(&mut self, entries: &Entries<i64>) -> i64
        ensures state { self.new ≡ record self.old { value = value_at self.old.key entries.now } }
        ensures value { result ≡ key_shows self.new }
    {
        self.value = entries.get(self.key);
        self.shown()
    }

    /// The value at the key after the differences, where it isn't the one before them.
    pub fn step(&mut self, diffs: &MapDiffs<i64>) -> Option<i64>
        ensures state { self.new ≡ record self.old { value = value_after self.old.key self.old.value diffs.now } }
        ensures value { result ≡ given (key_shows self.old) (key_shows self.new) }
        ensures law { (entries : List (ℤ × ℤ)) → self.old.value ≡ value_at self.old.key entries → self.new.value ≡ value_at self.old.key (map_replayed entries diffs.now) }
    {
        let last = self.shown();
        self.value = value_after(self.key, self.value, diffs.as_slice());
        changed(last, self.shown())
    }

    /// The value, or the default where the map has none.
    fn shown(&self) -> i64
        ensures { result ≡ key_shows self.now }
    {
        self.value.unwrap_or(self.default)
    }
}

/// The present value, where it isn't the last one.
fn changed(last: i64, present: i64) -> Option<i64>
    ensures { result ≡ given last present }
{
    if present == last { None } else { Some(present) }
}

/// The value at the key after the differences, from the value before them.
fn value_after(key: i64, value: Option<i64>, diffs: &[MapDiff<i64>]) -> Option<i64>
    ensures { result ≡ value_after key value diffs.now }
{
    let mut present = value;
    'diffs: for diff in diffs {
        present = value_next(key, present, diff);
    }
    present
}

/// The value at the key after a difference, from the value before it.
fn value_next(key: i64, value: Option<i64>, diff: &MapDiff<i64>) -> Option<i64>
    ensures { result ≡ value_next key value diff.now }
{
    match diff {
        MapDiff::Replace { entries } => entries.get(key),
        MapDiff::Insert {
            key: changed,
            value: new,
        }
        | MapDiff::Update {
            key: changed,
            value: new,
        } if *changed == key => Some(*new),
        MapDiff::Remove { key: removed } if *removed == key => None,
        MapDiff::Clear => None,
        _ => value,
    }
}
