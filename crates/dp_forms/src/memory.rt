//! The elements of arrays, which are not held in registers.

ghost use Rattle.std.specs.Prelude.{◌≡◌};
ghost use Rattle.std.specs.Option.{IfSome, MatchOption};
ghost use Rattle.dp_forms.specs.Registers.{IsCell, IsPut};

/// The element at an index of the array that has `count` cells from the first one on, if there is one.
#[inline(always)]
pub(crate) fn cell(memory: &[i64], first: u32, count: u32, index: i64) -> Option<i64>
    ensures { IfSome result (λ v. IsCell memory.now first count index v) }
{
    if index < 0 {
        return None;
    }
    let place = index as usize;
    if place < count as usize {
        let at = first as usize + place;
        if at < memory.len() {
            return Some(memory[at]);
        }
    }
    None
}

/// Puts a value there, if there is such an element.
#[inline(always)]
pub(crate) fn put(memory: &mut [i64], first: u32, count: u32, index: i64, value: i64) -> Option<()>
    ensures { MatchOption result (memory.new ≡ memory.old) (λ _. IsPut memory.old first count index value memory.new) }
{
    if index < 0 {
        return None;
    }
    let place = index as usize;
    if place < count as usize {
        let at = first as usize + place;
        if at < memory.len() {
            memory[at] = value;
            return Some(());
        }
    }
    None
}
