//! What a lane answers where it is full, and where it is empty.
ghost use Rattle.std.specs.Prelude.{◌≡◌, ◌+◌, false, Some, slice_get};

use dp_lane::{LaneItem, TakeEnd, lane};
use std::sync::Wait;
use std::test::*;

/// A number of a list, with the list.
#[derive(Drop)]
struct Number<'p>(u64, &'p [u64]);

/// A list of numbers from a place on.
#[derive(Drop)]
struct Part<'p> {
    list: &'p [u64],
    first: u64,
}

impl<'p> LaneItem for Number<'p> {
    type Key = Part<'p>;

    ghost is_item = { λ key k x. slice_get key.list.now (key.first + k) ≡ Some x.0 };

    ghost is_ending = { λ key x. false };
}

fn next_of<R: Wait>(rt: &R, from: &mut TakeEnd<Number>) -> Option<u64> {
    Some(from.take(rt)?.0)
}

#[test]
fn full_at_its_capacity_and_none_when_empty(rt: HostRuntime) -> Result<(), Fail> {
    let list = [7, 8, 9, 10];
    let key = Part {
        list: &list,
        first: 1,
    };
    let (mut to, mut from) = lane::<Number>(rt.alloc(), &key, 2)?;
    drop(key);
    assert!(&rt; from.take(&rt).is_none());
    assert!(&rt; to.send(&rt, Number(8, &list)).is_ok());
    assert!(&rt; to.send(&rt, Number(9, &list)).is_ok());
    let Err(back) = to.send(&rt, Number(10, &list)) else {
        return Err(Fail::new("the lane has two places"));
    };
    assert_eq!(&rt; (back.0, to.refused(), from.refused()), (10, 1, 1));
    assert_eq!(&rt; next_of(&rt, &mut from), Some(8));
    assert!(&rt; to.send(&rt, back).is_ok());
    assert_eq!(&rt; next_of(&rt, &mut from), Some(9));
    assert_eq!(&rt; next_of(&rt, &mut from), Some(10));
    assert_eq!(&rt; next_of(&rt, &mut from), None);
    assert_eq!(&rt; (to.refused(), from.refused()), (1, 2));
    Ok(())
}
