//! What each seat says of the flag.

use dp_stop::StopSetter;
use std::test::*;

#[test]
fn set_is_seen_by_each_seat(rt: HostRuntime) -> Result<(), Fail> {
    let mut setter = StopSetter::new(rt.alloc())?;
    let mut first = setter.seat()?;
    assert!(&rt; !first.is_set(&rt));
    setter.set(&rt);
    let mut second = setter.seat()?;
    assert!(&rt; second.is_set(&rt));
    assert!(&rt; first.is_set(&rt));
    Ok(())
}

#[test]
fn flag_lives_as_long_as_a_seat(rt: HostRuntime) -> Result<(), Fail> {
    let mut setter = StopSetter::new(rt.alloc())?;
    let mut seat = setter.seat()?;
    setter.set(&rt);
    drop(setter);
    assert!(&rt; seat.is_set(&rt));
    Ok(())
}
