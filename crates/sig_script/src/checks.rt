ghost use Rattle.std.specs.Prelude.{◌≡◌, None, IfOk};
ghost use Rattle.sig_script.specs.Answering.{Answers};
ghost use Rattle.sig_script.specs.Built.{unbuilt};
ghost use Rattle.sig_script.specs.Reading.{built_script, checked_script, scheduled_script};

use crate::built::unbuilt;
use crate::paths::Stop;
use crate::refusals::ScriptError;
use crate::schedules::schedule_fault;
use crate::sizes::size_fault;
use crate::types::Script;
use std::alloc::Global;

/// A script of a document whose shape, names and limits are right, unless it can get too big, has an event too
/// many, or asks for what isn't built.
pub fn checked_script(alloc: Global, script: Script) -> Result<Script, ScriptError>
    ensures answer { Answers result (checked_script script) }
    ensures same { IfOk result (λ given. given ≡ script) }
    ensures built { IfOk result (λ given. unbuilt given ≡ None) }
{
    match size_fault(alloc, &script) {
        Ok(()) => scheduled_script(alloc, script),
        Err(Stop::Fault(path)) => Err(ScriptError::TooBig { path }),
        Err(Stop::NoMemory) => Err(ScriptError::NoMemory),
    }
}

fn scheduled_script(alloc: Global, script: Script) -> Result<Script, ScriptError>
    ensures answer { Answers result (scheduled_script script) }
    ensures same { IfOk result (λ given. given ≡ script) }
    ensures built { IfOk result (λ given. unbuilt given ≡ None) }
{
    match schedule_fault(alloc, &script) {
        Ok(None) => built_script(alloc, script),
        Ok(Some(place)) => match u32::try_from(place) {
            Ok(place) => Err(ScriptError::Schedule { place }),
            Err(_) => Err(ScriptError::NoMemory),
        },
        Err(_) => Err(ScriptError::NoMemory),
    }
}

fn built_script(alloc: Global, script: Script) -> Result<Script, ScriptError>
    ensures answer { Answers result (built_script script) }
    ensures same { IfOk result (λ given. given ≡ script) }
    ensures built { IfOk result (λ given. unbuilt given ≡ None) }
{
    match unbuilt(alloc, &script) {
        Ok(()) => Ok(script),
        Err(Stop::Fault(path)) => Err(ScriptError::NotBuilt { path }),
        Err(Stop::NoMemory) => Err(ScriptError::NoMemory),
    }
}
