//! Versions of a memory, and the slices of their pages.
use dp_base::{CellId, Cells};
use dp_memory::Version;
use std::test::Fail;

#[test]
fn a_snapshot_keeps_its_cells(rt: HostRuntime) -> Result<(), Fail> {
    let mut first = Version::of(rt.alloc(), &Cells::new(rt.alloc(), 8)?)?;
    first.set(CellId(3), 5)?;
    let snapshot = first.snapshot(None)?;
    first.set(CellId(3), 6)?;
    assert_eq!(&rt; snapshot.get(CellId(3)), 5);
    assert_eq!(&rt; first.get(CellId(3)), 6);
    let mut pages = snapshot.pages(CellId(2), 3);
    assert_eq!(&rt; pages.next(), Some([0, 5, 0].as_slice()));
    assert_eq!(&rt; pages.next(), None);
    Ok(())
}

#[test]
fn slices_end_with_their_pages(rt: HostRuntime) -> Result<(), Fail> {
    let version = Version::of(rt.alloc(), &Cells::new(rt.alloc(), 1_000)?)?;
    let mut pages = version.pages(CellId(250), 510);
    for length in [6, 256, 248] {
        assert_eq!(&rt; pages.next().map(|slice| slice.len()), Some(length));
    }
    assert_eq!(&rt; pages.next(), None);
    assert_eq!(&rt; version.pages(CellId(7), 0).next(), None);
    Ok(())
}

#[test]
fn a_snapshot_in_the_room_of_a_spent_version_has_none_of_its_numbers(
    rt: HostRuntime,
) -> Result<(), Fail> {
    let mut spent = Version::of(rt.alloc(), &Cells::new(rt.alloc(), 600)?)?;
    spent.set(CellId(3), 1)?;
    spent.set(CellId(599), 2)?;
    let mut first = Version::of(rt.alloc(), &Cells::new(rt.alloc(), 300)?)?;
    first.set(CellId(299), 5)?;
    let snapshot = first.snapshot(Some(spent.into_room()))?;
    first.set(CellId(299), 6)?;
    assert_eq!(&rt; snapshot.get(CellId(3)), 0);
    assert_eq!(&rt; snapshot.get(CellId(299)), 5);
    assert_eq!(&rt; snapshot.find(CellId(300)), None);
    Ok(())
}
