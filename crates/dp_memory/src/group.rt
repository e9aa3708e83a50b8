//! Sixteen pages, which are shared together.
ghost use Rattle.std.specs.Prelude.{◌≡◌, ◌<◌, None, Some, map, IfOk, OnOk, OnErr};
ghost use Rattle.dp_memory.specs.Pieces.{HasCell, with_cell, ArePagesOf};
ghost use Rattle.dp_memory.specs.Piece.{items_of, pages_of};

use crate::piece::Piece;
use dp_base::NoMemory;
use std::alloc::Global;

/// At most 256 cells.
pub(crate) type Page = Piece<i64>;

/// At most sixteen pages.
pub(crate) type Group = Piece<Page>;

/// Makes the pages ones that can be shared.
fn freeze_pages(pages: &mut Vec<Page>, alloc: Global) -> Result<(), NoMemory>
    ensures { map items_of pages.new.items ≡ map items_of pages.old.items }
{
    for at in 0..pages.len() {
        pages[at].freeze(alloc)?;
    }
    Ok(())
}

/// Makes the group, and its pages, ones that can be shared.
#[tactic(auto, using(crate::proofs::Held::pages_same))]
fn freeze(group: &mut Group, alloc: Global) -> Result<(), NoMemory>
    ensures { pages_of group.new ≡ pages_of group.old }
{
    freeze_pages(&mut group.own, alloc)?;
    group.freeze(alloc)
}

/// The same for all of these groups.
pub(crate) fn freeze_all(groups: &mut Vec<Group>, alloc: Global) -> Result<(), NoMemory>
    ensures { map pages_of groups.new.items ≡ map pages_of groups.old.items }
{
    for at in 0..groups.len() {
        freeze(&mut groups[at], alloc)?;
    }
    Ok(())
}

/// Copies of pages, which share their cells.
fn copies(pages: &[Page], alloc: Global) -> Result<Vec<Page>, NoMemory>
    ensures { IfOk result (λ copies. map items_of copies.items ≡ map items_of pages.now) }
{
    let mut copies = Vec::with_capacity(alloc, pages.len())?;
    for page in pages {
        copies.push(page.copy(alloc)?)?;
    }
    Ok(copies)
}

/// Another group with the same pages, which it shares where they can be shared.
#[tactic(auto, unfolding(crate::specs::Piece::held))]
fn copy(group: &Group, alloc: Global) -> Result<Group, NoMemory>
    ensures { IfOk result (λ other. pages_of other ≡ pages_of group.now) }
{
    match &group.shared {
        Some(pages) => Piece::shared(alloc, pages),
        None => Ok(Piece::of(copies(group.own.as_slice(), alloc)?)),
    }
}

/// Copies of groups, which share their pages.
pub(crate) fn copy_all(groups: &[Group], alloc: Global) -> Result<Vec<Group>, NoMemory>
    ensures { IfOk result (λ copies. map pages_of copies.items ≡ map pages_of groups.now) }
{
    let mut copies = Vec::with_capacity(alloc, groups.len())?;
    for group in groups {
        copies.push(copy(group, alloc)?)?;
    }
    Ok(copies)
}

/// Makes the list of pages the group's own.
pub(crate) fn unshare(group: &mut Group, alloc: Global) -> Result<(), NoMemory>
    ensures ok { OnOk result (group.new.shared ≡ None) }
    ensures same { pages_of group.new ≡ pages_of group.old }
{
    if !group.is_own() {
        let pages = copies(group.as_slice(), alloc)?;
        group.put(pages);
    }
    Ok(())
}

/// Puts a number into a cell of a page, after a copy of what other groups share.
pub(crate) fn set(
    group: &mut Group,
    alloc: Global,
    at: usize,
    place: usize,
    value: i64,
) -> Result<(), NoMemory>
    requires { HasCell (pages_of group.old) at place }
    ensures ok { OnOk result (pages_of group.new ≡ with_cell (pages_of group.old) at place value) }
    ensures err { OnErr result (pages_of group.new ≡ pages_of group.old) }
{
    unshare(group, alloc)?;
    let page = &mut group.own[at];
    page.set(alloc, place, value)?;
    Ok(())
}

/// Pages of these cells, 256 in each but the last.
pub(crate) fn pages(alloc: Global, cells: &[i64]) -> Result<Vec<Page>, NoMemory>
    ensures { IfOk result (λ pages. ArePagesOf (map items_of pages.items) cells.now) }
{
    let mut pages = Vec::new(alloc);
    let mut rest = cells;
    while !rest.is_empty() {
        let (page, more) = rest.split_at(rest.len().min(256));
        let page = Piece::of(Vec::from_slice(alloc, page)?);
        pages.push(page)?;
        rest = more;
    }
    Ok(pages)
}
