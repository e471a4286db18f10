ghost use Rattle.std.specs.Prelude.{◌≡◌, ◌++◌, ◌∷◌, [], ◌+◌, ◌^◌, ◌<◌, length, OnOk};
ghost use Rattle.sig_flat.specs.Runs.{further, inserts, last_place, pops, pushes, removes};

use sig_diff::{Diffs, NoMemory, TryCopy, VecDiff};

/// Adds so many differences by which the element at a place goes.
pub fn removes(count: u32, place: u32, given: &mut Diffs<i64>) -> Result<(), NoMemory>
    ensures { OnOk result (given.new ≡ given.old ++ removes count place) }
{
    'removed: for _ in 0..count {
        given.push(VecDiff::RemoveAt { index: place })?;
    }
    Ok(())
}

/// Adds the differences by which the values come in from a place on.
pub fn inserts(place: u32, values: &[i64], given: &mut Diffs<i64>) -> Result<(), NoMemory>
    requires { place + length values.now < 2 ^ 32 }
    ensures { OnOk result (given.new ≡ given.old ++ inserts place values.now) }
{
    let mut index = place;
    'values: for value in values {
        given.push(VecDiff::InsertAt {
            index,
            value: *value,
        })?;
        index += 1;
    }
    Ok(())
}

/// Adds so many differences by which the last element goes.
pub fn pops(count: u32, given: &mut Diffs<i64>) -> Result<(), NoMemory>
    ensures { OnOk result (given.new ≡ given.old ++ pops count) }
{
    'popped: for _ in 0..count {
        given.push(VecDiff::Pop)?;
    }
    Ok(())
}

/// Adds the differences by which the values come to the end.
pub fn pushes(values: &[i64], given: &mut Diffs<i64>) -> Result<(), NoMemory>
    ensures { OnOk result (given.new ≡ given.old ++ pushes values.now) }
{
    'values: for value in values {
        given.push(VecDiff::Push { value: *value })?;
    }
    Ok(())
}

/// Adds the difference of a part of a list as one of the whole, where so many elements are before the part.
pub fn give_further(
    places: u32,
    diff: &VecDiff<i64>,
    given: &mut Diffs<i64>,
) -> Result<(), NoMemory>
    requires { places + last_place diff.now < 2 ^ 32 }
    ensures { OnOk result (given.new ≡ given.old ++ further places diff.now ∷ []) }
{
    given.push(match diff {
        VecDiff::InsertAt { index, value } => VecDiff::InsertAt {
            index: places + *index,
            value: *value,
        },
        VecDiff::UpdateAt { index, value } => VecDiff::UpdateAt {
            index: places + *index,
            value: *value,
        },
        VecDiff::RemoveAt { index } => VecDiff::RemoveAt {
            index: places + *index,
        },
        VecDiff::Move {
            old_index,
            new_index,
        } => VecDiff::Move {
            old_index: places + *old_index,
            new_index: places + *new_index,
        },
        VecDiff::Replace { .. } | VecDiff::Push { .. } | VecDiff::Pop | VecDiff::Clear => {
            diff.copy()?
        }
    })
}
