ghost use Rattle.sig_script.specs.Built.{unbuilt};
ghost use Rattle.sig_script.specs.Finding.{Finds};

use crate::paths::{Stop, below, here_unless};
use crate::types::Script;
use std::alloc::Global;

/// Where a script asks for what isn't built yet.
pub fn unbuilt(alloc: Global, script: &Script) -> Result<(), Stop>
    ensures { Finds result (unbuilt script.now) }
{
    below(
        alloc,
        "shares",
        here_unless(alloc, script.shares.is_empty()),
    )
}
