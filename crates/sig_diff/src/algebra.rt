ghost use Rattle.std.specs.Prelude.{◌≡◌, length, OnOk, OnErr};
ghost use Rattle.sig_diff.specs.Differences.{is_lawful, IsLawful, applied};

use crate::differences::VecDiff;
use crate::lists::{Items, NoMemory};

/// Whether a list of this length takes the difference.
pub fn is_lawful<T>(diff: &VecDiff<T>, len: u32) -> bool
    ensures { result ≡ is_lawful diff.now len }
{
    match diff {
        VecDiff::Replace { .. } | VecDiff::Push { .. } | VecDiff::Clear => true,
        VecDiff::InsertAt { index, .. } => *index <= len,
        VecDiff::UpdateAt { index, .. } | VecDiff::RemoveAt { index } => *index < len,
        VecDiff::Move {
            old_index,
            new_index,
        } => *old_index < len && *new_index < len,
        VecDiff::Pop => len > 0,
    }
}

/// Changes a list by a difference that it takes. After a refusal the list is as it was.
pub fn apply<T: Copy + Eq>(list: &mut Items<T>, diff: &VecDiff<T>) -> Result<(), NoMemory>
    requires { IsLawful diff.now (length list.old) }
    ensures ok { OnOk result (list.new ≡ applied list.old diff.now) }
    ensures err { OnErr result (list.new ≡ list.old) }
{
    match diff {
        VecDiff::Replace { values } => list.assign(values.as_slice())?,
        VecDiff::InsertAt { index, value } => list.insert(*index as usize, *value)?,
        VecDiff::UpdateAt { index, value } => list.set(*index as usize, *value),
        VecDiff::RemoveAt { index } => {
            list.remove(*index as usize);
        }
        VecDiff::Move {
            old_index,
            new_index,
        } => list.shift(*old_index as usize, *new_index as usize),
        VecDiff::Push { value } => list.push(*value)?,
        VecDiff::Pop => {
            list.pop();
        }
        VecDiff::Clear => list.clear(),
    }
    Ok(())
}
