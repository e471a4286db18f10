use crate::fixtures::{list, two};
use sig_diff::{Items, VecDiff};
use sig_ops::{Called, EnumerateOp, FilterOp, MapOp, Named, VecOp, follow};
use std::test::Fail;

/// Whether a number is at least 3.
#[derive(Drop)]
struct AtLeastThree;

impl Named<bool> for AtLeastThree {
    ghost use Rattle.std.specs.Prelude.{int_le, pos};

    ghost answer = { λ x. int_le (pos 3) x };
}

#[test]
fn a_map_calls_a_closure(rt: HostRuntime) -> Result<(), Fail> {
    let at_least = Called::<bool, _, AtLeastThree>::new(|x| x >= 3);
    let mut op = MapOp::<i64, bool, _>::new(rt.alloc(), at_least);
    let shown = op.start(&list(rt.alloc(), &[1, 5])?)?;
    assert_eq!(rt; shown.as_slice(), [false, true].as_slice());
    let mut given = Items::new(rt.alloc());
    op.step(&VecDiff::Push { value: 4 }, &mut given)?;
    assert!(rt; matches!(given.as_slice(), [VecDiff::Push { value: true }]));
    Ok(())
}

#[test]
fn a_filter_calls_a_closure(rt: HostRuntime) -> Result<(), Fail> {
    let at_least = Called::<bool, _, AtLeastThree>::new(|x| x >= 3);
    let mut op = FilterOp::new(rt.alloc(), at_least);
    let shown = op.start(&list(rt.alloc(), &[1, 5])?)?;
    assert_eq!(rt; shown.as_slice(), [5].as_slice());
    let mut given = Items::new(rt.alloc());
    op.step(&VecDiff::Pop, &mut given)?;
    assert!(rt; matches!(given.as_slice(), [VecDiff::Pop]));
    Ok(())
}

#[test]
fn a_tag_is_found_at_its_place(rt: HostRuntime) -> Result<(), Fail> {
    let mut op = EnumerateOp::new(rt.alloc());
    op.start(&list(rt.alloc(), &[1, 5])?)?;
    let mut given = Items::new(rt.alloc());
    let push = VecDiff::Push { value: 4 };
    let diffs = two(rt.alloc(), push, VecDiff::RemoveAt { index: 0 })?;
    follow(&mut op, &diffs, &mut given)?;
    assert_eq!(rt; given.len(), 2);
    assert!(rt; op.place_of(1) == Some(0) && op.place_of(2) == Some(1));
    assert!(rt; op.place_of(0).is_none() && op.has_tags());
    Ok(())
}
