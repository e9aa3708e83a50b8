//! The units of a small graph.
use dp_units::units;
use std::test::Fail;

#[test]
fn a_cycle_comes_before_what_waits_for_a_later_node(rt: HostRuntime) -> Result<(), Fail> {
    let found = units(rt.alloc(), 4, &[(0, 1), (1, 0), (3, 2)])?;
    assert_eq!(&rt; found.order(), [0, 3, 2].as_slice());
    Ok(())
}
