//! A producer, two workers and a consumer of a ring in threads of their own.
ghost use Rattle.std.specs.Prelude.{◌≡◌, ◌*◌, ◌≤◌, false, true};
ghost use Rattle.dp_ring.specs.declared.view.Phase.TheVariants.{Resting, Taking, Giving};
ghost use Rattle.dp_ring.specs.Tested.{IsSame, IsKeyed, IsFirst, IsIdle};

use dp_base::NoMemory;
use dp_ring::{ConsumerSeat, ProducerSeat, Ring, RingItem, WorkerSeat};
use std::alloc::Global;
use std::sync::Wait;
use std::test::Fail;
use std::thread;
use std::thread::Threads;

const COUNT: u64 = 100_000;

/// The items are the numbers from 0 on, and each is given doubled.
#[derive(Drop)]
struct Number(u64);

impl RingItem for Number {
    type Key = u8;

    ghost is_put = { λ _ t x. x.0 ≡ t };

    ghost is_given = { λ _ t x. x.0 ≡ 2 * t };

    ghost is_ending = { λ _ _. false };
}

fn produce<R: Wait>(rt: &R, mut seat: ProducerSeat<Number>)
    requires { IsFirst seat }
{
    let mut next = 0;
    for _ in rt.forever() {
        if next >= COUNT {
            break;
        }
        match seat.put(Number(next)) {
            Ok(()) => next += 1,
            Err(_) => thread::yield_now(),
        }
    }
}

fn take<R: Wait>(rt: &R, seat: &mut WorkerSeat<Number>) -> Number
    requires { (seat.old.view.phase ≡ Taking) × IsKeyed seat.old }
    ensures item { result.0 ≡ seat.old.view.at }
    ensures seat { (seat.new.view.phase ≡ Giving) × IsSame seat.old seat.new }
{
    for _ in rt.forever() {
        if let Ok(item) = seat.take() {
            return item;
        }
        thread::yield_now();
    }
    unreachable!()
}

fn give<R: Wait>(rt: &R, seat: &mut WorkerSeat<Number>, number: u64)
    requires seat { (seat.old.view.phase ≡ Giving) × IsKeyed seat.old }
    requires number { number ≡ 2 * seat.old.view.at }
    ensures { (seat.new.view.phase ≡ Resting) × IsSame seat.old seat.new }
{
    for _ in rt.forever() {
        if seat.give(Number(number)).is_ok() {
            return;
        }
        thread::yield_now();
    }
    unreachable!()
}

fn work<R: Wait>(rt: &R, mut seat: WorkerSeat<Number>)
    requires { IsIdle seat }
{
    let mut rounds = 0;
    while rounds < COUNT {
        if seat.draw() >= COUNT {
            return;
        }
        let Number(number) = take(rt, &mut seat);
        give(rt, &mut seat, 2 * number);
        rounds += 1;
    }
}

fn consume<R: Wait>(rt: &R, mut seat: ConsumerSeat<Number>) -> bool
    requires { IsFirst seat }
    ensures { result ≡ true }
{
    let mut next = 0;
    for _ in rt.forever() {
        if next >= COUNT {
            break;
        }
        match seat.take() {
            Ok(Number(number)) => {
                if number != 2 * next {
                    return false;
                }
                next += 1;
            }
            Err(_) => thread::yield_now(),
        }
    }
    true
}

fn work_both<R: Threads + Wait + Sync>(
    rt: &R,
    first: WorkerSeat<Number>,
    second: WorkerSeat<Number>,
)
    requires { IsIdle first × IsIdle second }
{
    thread::join(
        rt,
        move ||
            requires { IsIdle first }
        { work(rt, first) },
        move ||
            requires { IsIdle second }
        { work(rt, second) },
    );
}

fn work_and_consume<R: Threads + Wait + Sync>(
    rt: &R,
    first: WorkerSeat<Number>,
    second: WorkerSeat<Number>,
    consumer: ConsumerSeat<Number>,
) -> bool
    requires { IsIdle first × IsIdle second × IsFirst consumer }
{
    let ((), is_ordered) = thread::join(
        rt,
        move ||
            requires { IsIdle first × IsIdle second }
        { work_both(rt, first, second) },
        move ||
            requires { IsFirst consumer }
        { consume(rt, consumer) },
    );
    is_ordered
}

fn relay<R: Threads + Wait + Sync>(rt: &R, alloc: Global, k: u32) -> Result<bool, NoMemory>
    requires { 1 ≤ k }
{
    let (producer, mut seats, consumer) = Ring::new::<Number>(alloc, &0, k, 2)?;
    let (Some(first), Some(second)) = (seats.pop(), seats.pop()) else {
        return Ok(false);
    };
    let ((), is_ordered) = thread::join(
        rt,
        move ||
            requires { IsFirst producer }
        { produce(rt, producer) },
        move ||
            requires { IsIdle first × IsIdle second × IsFirst consumer }
        { work_and_consume(rt, first, second, consumer) },
    );
    Ok(is_ordered)
}

#[test]
fn many_items_come_in_order(rt: HostRuntime) -> Result<(), Fail> {
    assert!(&rt; relay(&rt, rt.alloc(), 1)?);
    assert!(&rt; relay(&rt, rt.alloc(), 64)?);
    Ok(())
}
