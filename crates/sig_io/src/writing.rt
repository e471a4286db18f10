ghost use Rattle.std.specs.Prelude.{OnOk};
ghost use Rattle.std.specs.Io.KnownBytes.{Appends};
ghost use Rattle.sig_io.specs.Causes.{HasCause};
ghost use Rattle.sig_io.specs.Transfer.{AppendsPrefix};

use crate::traits::{Failed, Sink};

/// Writes all of a text, in as many writes as the sink takes. After a write that failed, a prefix of
/// the text was written.
pub fn write_all<K: Sink>(sink: &mut K, text: &[u8]) -> Result<(), Failed>
    ensures all { OnOk result (Appends (K.written sink.old) (K.written sink.new) text.now) }
    ensures prefix { AppendsPrefix (K.written sink.old) (K.written sink.new) text.now }
    ensures cause { HasCause (K.faults sink.old) (K.faults sink.new) result }
{
    let mut sent = 0;
    'writes: while sent < text.len() {
        sent += sink.write(&text[sent..])?;
    }
    Ok(())
}
