//! A lane between two threads.
ghost use Rattle.std.specs.Prelude.{◌≡◌, false, true, IfOk};
ghost use Rattle.dp_lane.specs.declared.rule.View.TheVariants.{Sender, Taker};

use crate::PLACES;
use crate::item::Item;
use crossbeam_utils::Backoff;
use dp_lane::{SendEnd, TakeEnd, lane};
use dp_room::NoMemory;
use std::alloc::Global;
use std::sync::Wait;
use std::thread;
use std::thread::Threads;

/// Whether all items came in order.
pub fn all_items<R: Threads + Wait + Sync>(
    rt: &R,
    alloc: Global,
    count: u64,
) -> Result<bool, NoMemory>
    ensures { IfOk result (λ is_ordered. is_ordered ≡ true) }
{
    let (to, from) = lane::<Item>(alloc, &0, PLACES)?;
    let ((), is_ordered) = thread::join(
        rt,
        move || -> ()
            requires { to.view ≡ Sender 0 0 false }
        { send_all(rt, to, count) },
        move || -> bool
            requires { from.view ≡ Taker 0 0 }
            ensures { result ≡ true }
        { take_all(rt, from, count) },
    );
    Ok(is_ordered)
}

fn send_all<R: Wait>(rt: &R, mut to: SendEnd<Item>, count: u64)
    requires { to.view ≡ Sender 0 0 false }
{
    let backoff = Backoff::new();
    let mut sent = 0;
    for _ in rt.forever() {
        if sent >= count {
            break;
        }
        match to.send(rt, Item(sent)) {
            Ok(()) => {
                sent += 1;
                backoff.reset();
            }
            Err(_) => backoff.snooze(),
        }
    }
}

fn take_all<R: Wait>(rt: &R, mut from: TakeEnd<Item>, count: u64) -> bool
    requires { from.view ≡ Taker 0 0 }
    ensures { result ≡ true }
{
    let backoff = Backoff::new();
    let mut taken = 0;
    for _ in rt.forever() {
        if taken >= count {
            break;
        }
        match from.take(rt) {
            Some(item) => {
                if item.0 != taken {
                    return false;
                }
                taken += 1;
                backoff.reset();
            }
            None => backoff.snooze(),
        }
    }
    true
}
