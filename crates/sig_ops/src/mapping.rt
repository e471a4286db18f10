ghost use Rattle.std.specs.Prelude.{◌≡◌, [], ◌∷◌, map, IfOk};
ghost use Rattle.sig_ops.specs.Tables.{map_gives};

use crate::operators::VecOp;
use sig_diff::{Diffs, Items, Mapper, NoMemory, VecDiff, mapped};
use std::alloc::Global;
use std::marker::{Model, PhantomData};

/// The images of the items. Contracts see it as its function.
///
/// By `neg` it shows the list 4, 1 as -4, -1. For an update of 7 at 1 it then gives an update of -7 at 1.
#[derive(Debug, Drop)]
pub struct MapOp<T, U, M> {
    mapper: M,
    items: PhantomData<(T, U)>,
}

impl<T, U, M> Model for MapOp<T, U, M> {
    ghost Value = { M };

    ghost view = { λ op. op.mapper };
}

impl<T, U, M> MapOp<T, U, M> {
    /// The map by a function. It takes no memory.
    pub fn new(alloc: Global, mapper: M) -> MapOp<T, U, M>
        ensures { result ≡ mapper }
    {
        MapOp {
            mapper,
            items: PhantomData,
        }
    }
}

impl<T: Copy + Eq, U: Copy + Eq, M: Mapper<T, U>> VecOp for MapOp<T, U, M> {
    ghost use Rattle.std.specs.Prelude.{map};
    ghost use Rattle.sig_ops.specs.Tables.{map_gives};
    ghost use Rattle.sig_ops.specs.laws.Mapping.{map_leads, map_is_short};
    ghost use Rattle.std.proofs.Common.{rules};

    type In = T;

    type Out = U;

    ghost can_start = { λ op. M.can_call op };

    ghost stands_for = { λ op xs. M.can_call op };

    ghost view = { λ op xs. map (M.maps op) xs };

    ghost tags = { λ op. 0 };

    ghost started = { λ op xs. op };

    ghost can_step = { λ op diff. M.can_call op };

    ghost gives = { λ op diff. map_gives (M.maps op) diff };

    ghost next = { λ op diff. op };

    ghost leads = { λ op xs diff stands lawful. map_leads (M.maps op) xs diff lawful };

    ghost stands_at_start = { λ op xs can. can };

    ghost stands_after = { λ op xs diff stands lawful. stands };

    ghost steps_where_lawful = { λ op xs diff stands lawful short short_after few. stands };

    ghost view_is_short = { λ op xs stands. map_is_short (M.maps op) xs };

    ghost no_tags_at_start = { Prim.search rules };

    ghost few_tags_a_step = { Prim.search rules };

    fn start(&mut self, items: &Items<T>) -> Result<Items<U>, NoMemory> {
        mapped(items.alloc(), &self.mapper, items.as_slice())
    }

    fn step(&mut self, diff: &VecDiff<T>, given: &mut Diffs<U>) -> Result<(), NoMemory> {
        let alloc = given.alloc();
        given.push(image(alloc, &self.mapper, diff)?)
    }
}

/// The same difference, with the function at its values.
pub fn image<T: Copy, U: Copy, M: Mapper<T, U>>(
    alloc: Global,
    mapper: &M,
    diff: &VecDiff<T>,
) -> Result<VecDiff<U>, NoMemory>
    requires { M.can_call mapper.now }
    ensures { IfOk result (λ image. image ∷ [] ≡ map_gives (M.maps mapper.now) diff.now) }
{
    Ok(match diff {
        VecDiff::Replace { values } => VecDiff::Replace {
            values: mapped(alloc, mapper, values.as_slice())?,
        },
        VecDiff::InsertAt { index, value } => VecDiff::InsertAt {
            index: *index,
            value: mapper.call(*value),
        },
        VecDiff::UpdateAt { index, value } => VecDiff::UpdateAt {
            index: *index,
            value: mapper.call(*value),
        },
        VecDiff::RemoveAt { index } => VecDiff::RemoveAt { index: *index },
        VecDiff::Move {
            old_index,
            new_index,
        } => VecDiff::Move {
            old_index: *old_index,
            new_index: *new_index,
        },
        VecDiff::Push { value } => VecDiff::Push {
            value: mapper.call(*value),
        },
        VecDiff::Pop => VecDiff::Pop,
        VecDiff::Clear => VecDiff::Clear,
    })
}
