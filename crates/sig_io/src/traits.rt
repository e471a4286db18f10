ghost use Rattle.std.specs.Prelude.{ℕ, ◌<◌, List, Option, length, IfOk};
ghost use Rattle.std.specs.Io.{ReadsAtMost, WritesAtMost};
ghost use Rattle.std.specs.Io.KnownBytes.{ReadConsumes, WriteAppends};
ghost use Rattle.sig_io.specs.Causes.{HasCause};

use thiserror::Error;

/// A read or a write that failed. The source or the sink has counted it.
#[derive(Clone, Copy, Debug, PartialEq, Eq, Error)]
#[error("the read or the write failed")]
pub struct Failed;

/// Where bytes come from.
///
/// `left` is what reads will still give, where the source tells it. `faults` counts the reads that
/// failed: it never falls, and stands still at the largest `u64`.
pub trait Source {
    ghost left: { Self → Option (List ℕ) };

    ghost faults: { Self → ℕ };

    /// Gives the next bytes, as many as the result says. None for a `buf` with room says that the
    /// input is at its end.
    fn read(&mut self, buf: &mut [u8]) -> Result<usize, Failed>
        ensures bound { ReadsAtMost result buf.new }
        ensures bytes { ReadConsumes (left self.old) (left self.new) result buf.new }
        ensures cause { HasCause (faults self.old) (faults self.new) result };
}

/// Where bytes go.
///
/// `written` is what was taken so far, where the sink tells it. `faults` counts the writes that
/// failed: it never falls, and stands still at the largest `u64`.
pub trait Sink {
    ghost written: { Self → Option (List ℕ) };

    ghost faults: { Self → ℕ };

    /// Takes the first bytes of `buf`, as many as the result says, and at least one if there is one.
    /// A write that failed took nothing.
    fn write(&mut self, buf: &[u8]) -> Result<usize, Failed>
        ensures bound { WritesAtMost result buf.now }
        ensures progress { IfOk result (λ count. 0 < length buf.now → 0 < count) }
        ensures bytes { WriteAppends (written self.old) (written self.new) result buf.now }
        ensures cause { HasCause (faults self.old) (faults self.new) result };
}
