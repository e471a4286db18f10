ghost use Rattle.std.specs.Prelude.{◌≡◌, true, None, Ok, IfOk, IfErr};
ghost use Rattle.serde_json.specs.View.{view};
ghost use Rattle.sig_script.specs.Answering.{Answers};
ghost use Rattle.sig_script.specs.Built.{unbuilt};
ghost use Rattle.sig_script.specs.Fields.{members_in};
ghost use Rattle.sig_script.specs.Leaving.{has_no_leaves};
ghost use Rattle.sig_script.specs.Names.{all_names};
ghost use Rattle.sig_script.specs.Reading.{IsRefusal, Reads, limited_script, named_script, reading};
ghost use Rattle.sig_script.specs.SelfContained.{IsSelfContained};
ghost use Rattle.sig_script.specs.Starts.{StartsInOrder};

use crate::checks::checked_script;
use crate::document_building::script_of;
use crate::document_limits::limits_fault;
use crate::document_names::names_of;
use crate::document_shapes::shape_fault;
use crate::name_table::NameTable;
use crate::paths::Stop;
use crate::refusals::ScriptError;
use crate::types::Script;
use serde_json::Value;
use std::alloc::Global;

/// Reads a script. The first refusal in the order of the refusals' numbers is answered, and within one number the first of the
/// document. Want of memory may come at any point.
pub fn read_script(alloc: Global, bytes: &[u8]) -> Result<Script, ScriptError>
    ensures ok { IfOk result (λ script. Reads bytes.now (Ok script)) }
    ensures in_order { IfOk result StartsInOrder }
    ensures no_leaves { IfOk result (λ script. has_no_leaves script ≡ true) }
    ensures built { IfOk result (λ script. unbuilt script ≡ None) }
    ensures self_contained { IfOk result IsSelfContained }
    ensures refused { IfErr result (IsRefusal bytes.now) }
{
    match Value::from_slice(alloc, bytes) {
        Ok(document) => reading(alloc, &document),
        Err(error) if error.is_memory() => Err(ScriptError::NoMemory),
        Err(_) => Err(ScriptError::NotJson),
    }
}

/// The script that a JSON value says, or the first refusal.
fn reading(alloc: Global, document: &Value) -> Result<Script, ScriptError>
    ensures answer { Answers result (reading (view document.now)) }
    ensures in_order { IfOk result StartsInOrder }
    ensures no_leaves { IfOk result (λ script. has_no_leaves script ≡ true) }
    ensures built { IfOk result (λ script. unbuilt script ≡ None) }
    ensures self_contained { IfOk result IsSelfContained }
{
    match shape_fault(alloc, document) {
        Ok(()) => named_script(alloc, document),
        Err(Stop::Fault(path)) => Err(ScriptError::Shape { path }),
        Err(Stop::NoMemory) => Err(ScriptError::NoMemory),
    }
}

fn named_script(alloc: Global, document: &Value) -> Result<Script, ScriptError>
    ensures answer { Answers result (named_script (members_in (view document.now))) }
    ensures in_order { IfOk result StartsInOrder }
    ensures no_leaves { IfOk result (λ script. has_no_leaves script ≡ true) }
    ensures built { IfOk result (λ script. unbuilt script ≡ None) }
    ensures self_contained { IfOk result IsSelfContained }
{
    match names_of(alloc, document) {
        Ok(names) => limited_script(alloc, document, &names),
        Err(Stop::Fault(path)) => Err(ScriptError::Name { path }),
        Err(Stop::NoMemory) => Err(ScriptError::NoMemory),
    }
}

fn limited_script(
    alloc: Global,
    document: &Value,
    names: &NameTable<'_>,
) -> Result<Script, ScriptError>
    requires { names.now ≡ all_names (members_in (view document.now)) }
    ensures answer { Answers result (limited_script (members_in (view document.now))) }
    ensures in_order { IfOk result StartsInOrder }
    ensures no_leaves { IfOk result (λ script. has_no_leaves script ≡ true) }
    ensures built { IfOk result (λ script. unbuilt script ≡ None) }
    ensures self_contained { IfOk result IsSelfContained }
{
    match limits_fault(alloc, document) {
        Ok(()) => match script_of(alloc, document, names) {
            Ok(script) => checked_script(alloc, script),
            Err(_) => Err(ScriptError::NoMemory),
        },
        Err(Stop::Fault(path)) => Err(ScriptError::Limit { path }),
        Err(Stop::NoMemory) => Err(ScriptError::NoMemory),
    }
}
