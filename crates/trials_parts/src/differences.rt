use crate::fixtures::two;
use sig_diff::{
    Entries, MapDiff, ReplayError, TryCopy, VecDiff, is_lawful, map_apply, map_is_lawful,
    map_replay, replay,
};
use std::test::Fail;

#[test]
fn an_index_past_the_list_is_unlawful(rt: HostRuntime) {
    for (index, wanted) in [(2, true), (3, true), (4, false)] {
        let insert = VecDiff::InsertAt { index, value: 7 };
        assert_eq!(rt; is_lawful(&insert, 3), wanted, "at {index}");
    }
}

#[test]
fn a_replay_gives_the_list_or_the_first_unlawful_difference(rt: HostRuntime) -> Result<(), Fail> {
    let push = VecDiff::Push { value: 4 };
    let good = two(rt.alloc(), push, VecDiff::UpdateAt { index: 0, value: 5 })?.copy()?;
    assert!(rt; replay(rt.alloc(), &good)?.as_slice() == [5].as_slice());
    let push = VecDiff::Push { value: 4 };
    let bad = two(rt.alloc(), push, VecDiff::RemoveAt { index: 1 })?;
    assert!(rt; replay(rt.alloc(), &bad).err() == Some(ReplayError::Unlawful { at: 1, len: 1 }));
    Ok(())
}

#[test]
fn a_replay_gives_the_map_or_the_first_unlawful_difference(rt: HostRuntime) -> Result<(), Fail> {
    let insert = MapDiff::Insert { key: 2, value: 5 };
    let good = two(rt.alloc(), insert, MapDiff::Update { key: 2, value: 6 })?.copy()?;
    assert!(rt; map_replay(rt.alloc(), &good)?.as_slice() == [(2, 6)].as_slice());
    let insert = MapDiff::Insert { key: 2, value: 5 };
    let bad = two(rt.alloc(), insert, MapDiff::Remove { key: 3 })?;
    assert!(rt;
        map_replay(rt.alloc(), &bad).err() == Some(ReplayError::Unlawful { at: 1, len: 1 })
    );
    Ok(())
}

#[test]
fn a_map_takes_what_is_lawful(rt: HostRuntime) -> Result<(), Fail> {
    let mut map = Entries::new(rt.alloc());
    map.push((1, 10))?;
    for (key, wanted) in [(1, false), (2, true)] {
        let insert = MapDiff::Insert { key, value: 7 };
        assert_eq!(rt; map_is_lawful(&insert, &map), wanted, "at {key}");
        if map_is_lawful(&insert, &map) {
            map_apply(&mut map, &insert)?;
        }
    }
    map.assign(&map.copy()?)?;
    assert!(rt; map.pairs()?.as_slice() == [(1, 10), (2, 7)].as_slice());
    Ok(())
}
