//! What is left of the parts of a batch's verdicts.
ghost use Rattle.std.specs.Prelude.{◌≡◌, ◌+◌, drop, min, take};
ghost use Rattle.std.specs.List.{list_all};
ghost use Rattle.dp_judge.specs.Told.{goes_on_behind};
ghost use Rattle.dp_judge.specs.Decided.{end_verdicts};
ghost use Rattle.dp_judge.specs.steps.Adding.{none_closing};

use crate::told::{Part, ToldEnd};

/// None of these leaves the region.
pub(crate) fn none_closes(parts: &[Part]) -> bool
    ensures { result ≡ none_closing parts.now }
{
    for part in parts {
        if part.closing {
            return false;
        }
    }
    true
}

/// Nothing stands behind the clean iterations.
pub(crate) fn is_over(end: ToldEnd) -> bool
    ensures { result ≡ list_all goes_on_behind (end_verdicts end) }
{
    match end {
        ToldEnd::Over => true,
        ToldEnd::Unclean => false,
        ToldEnd::NoMemory => false,
    }
}

/// The items from a place on.
pub(crate) fn left_from<T>(items: &[T], from: usize) -> &[T]
    ensures { result.now ≡ drop from items.now }
{
    let from_here = from.min(items.len());
    &items[from_here..]
}

/// So many items from a place on.
pub(crate) fn part_of<T>(items: &[T], from: usize, count: usize) -> &[T]
    ensures { result.now ≡ take count (drop from items.now) }
{
    let rest = left_from(items, from);
    let within = count.min(rest.len());
    &rest[..within]
}

/// The place behind so many items.
pub(crate) fn place_behind(from: usize, count: usize, places: usize) -> usize
    ensures { result ≡ min (from + count) places }
{
    from.saturating_add(count).min(places)
}
