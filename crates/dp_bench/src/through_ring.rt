//! A ring between a producer, workers and a consumer in threads of their own.
ghost use Rattle.std.specs.Prelude.{◌≡◌, ◌<◌, ◌^◌, true, IfOk, IfSome};
ghost use Rattle.dp_ring.specs.declared.view.Phase.TheVariants.{Resting, Taking, Giving};
ghost use Rattle.dp_ring.specs.Tested.{IsSame, IsKeyed, IsFirst, IsIdle};

use crate::PLACES;
use crate::item::Item;
use crossbeam_utils::Backoff;
use dp_ring::{ConsumerSeat, ProducerSeat, PutBusy, Ring, WorkerSeat};
use dp_room::NoMemory;
use std::alloc::Global;
use std::sync::Wait;
use std::thread;
use std::thread::Threads;

/// Whether all items came in order, by one worker or by two.
pub fn all_items<R: Threads + Wait + Sync>(
    rt: &R,
    alloc: Global,
    count: u64,
    by_two: bool,
) -> Result<bool, NoMemory>
    requires { count < 2 ^ 32 }
    ensures { IfOk result (λ is_ordered. is_ordered ≡ true) }
{
    let (producer, mut seats, consumer) = Ring::new::<Item>(alloc, &0, PLACES, 2)?;
    let (Some(first), Some(spare)) = (seats.pop(), seats.pop()) else {
        return Ok(false);
    };
    Ok(if by_two {
        relay(rt, count, producer, first, Some(spare), consumer)
    } else {
        relay(rt, count, producer, first, None, consumer)
    })
}

fn relay<R: Threads + Wait + Sync>(
    rt: &R,
    count: u64,
    producer: ProducerSeat<Item>,
    first: WorkerSeat<Item>,
    second: Option<WorkerSeat<Item>>,
    consumer: ConsumerSeat<Item>,
) -> bool
    requires { (count < 2 ^ 32) × IsFirst producer × IsIdle first × IfSome second IsIdle × IsFirst consumer }
    ensures { result ≡ true }
{
    let ((), is_ordered) = thread::join(
        rt,
        move ||
            requires { (count < 2 ^ 32) × IsFirst producer }
        { produce(rt, count, producer) },
        move || -> bool
            requires { (count < 2 ^ 32) × IsIdle first × IfSome second IsIdle × IsFirst consumer }
            ensures { result ≡ true }
        { work_and_consume(rt, count, first, second, consumer) },
    );
    is_ordered
}

fn work_and_consume<R: Threads + Wait + Sync>(
    rt: &R,
    count: u64,
    first: WorkerSeat<Item>,
    second: Option<WorkerSeat<Item>>,
    consumer: ConsumerSeat<Item>,
) -> bool
    requires { (count < 2 ^ 32) × IsIdle first × IfSome second IsIdle × IsFirst consumer }
    ensures { result ≡ true }
{
    let ((), is_ordered) = thread::join(
        rt,
        move ||
            requires { (count < 2 ^ 32) × IsIdle first × IfSome second IsIdle }
        { work_all(rt, count, first, second) },
        move || -> bool
            requires { (count < 2 ^ 32) × IsFirst consumer }
            ensures { result ≡ true }
        { consume(rt, count, consumer) },
    );
    is_ordered
}

fn work_all<R: Threads + Wait + Sync>(
    rt: &R,
    count: u64,
    first: WorkerSeat<Item>,
    second: Option<WorkerSeat<Item>>,
)
    requires { (count < 2 ^ 32) × IsIdle first × IfSome second IsIdle }
{
    let Some(second) = second else {
        work(rt, count, first);
        return;
    };
    thread::join(
        rt,
        move ||
            requires { (count < 2 ^ 32) × IsIdle first }
        { work(rt, count, first) },
        move ||
            requires { (count < 2 ^ 32) × IsIdle second }
        { work(rt, count, second) },
    );
}

fn produce<R: Wait>(rt: &R, count: u64, mut seat: ProducerSeat<Item>)
    requires { (count < 2 ^ 32) × IsFirst seat }
{
    let backoff = Backoff::new();
    let mut next = 0;
    for _ in rt.forever() {
        if next >= count {
            break;
        }
        match seat.put(Item(next)) {
            Ok(()) => {
                next += 1;
                backoff.reset();
            }
            Err(_) => backoff.snooze(),
        }
    }
}

fn work<R: Wait>(rt: &R, count: u64, mut seat: WorkerSeat<Item>)
    requires { (count < 2 ^ 32) × IsIdle seat }
{
    let mut rounds = 0;
    while rounds < count {
        if seat.draw() >= count {
            return;
        }
        let item = take(rt, &mut seat);
        give(rt, &mut seat, item);
        rounds += 1;
    }
}

fn take<R: Wait>(rt: &R, seat: &mut WorkerSeat<Item>) -> Item
    requires { (seat.old.view.phase ≡ Taking) × IsKeyed seat.old }
    ensures item { result.0 ≡ seat.old.view.at }
    ensures seat { (seat.new.view.phase ≡ Giving) × IsSame seat.old seat.new }
{
    let backoff = Backoff::new();
    for _ in rt.forever() {
        if let Ok(item) = seat.take() {
            return item;
        }
        backoff.snooze();
    }
    unreachable!()
}

fn give<R: Wait>(rt: &R, seat: &mut WorkerSeat<Item>, item: Item)
    requires seat { (seat.old.view.phase ≡ Giving) × IsKeyed seat.old }
    requires item { item.0 ≡ seat.old.view.at }
    ensures { (seat.new.view.phase ≡ Resting) × IsSame seat.old seat.new }
{
    let backoff = Backoff::new();
    let mut mine = item;
    for _ in rt.forever() {
        match seat.give(mine) {
            Ok(()) => return,
            Err(PutBusy { item, word: _ }) => mine = item,
        }
        backoff.snooze();
    }
    unreachable!()
}

fn consume<R: Wait>(rt: &R, count: u64, mut seat: ConsumerSeat<Item>) -> bool
    requires { (count < 2 ^ 32) × IsFirst seat }
    ensures { result ≡ true }
{
    let backoff = Backoff::new();
    let mut next = 0;
    for _ in rt.forever() {
        if next >= count {
            break;
        }
        match seat.take() {
            Ok(Item(number)) => {
                if number != next {
                    return false;
                }
                next += 1;
                backoff.reset();
            }
            Err(_) => backoff.snooze(),
        }
    }
    true
}
