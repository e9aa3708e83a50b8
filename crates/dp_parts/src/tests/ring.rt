//! What each call answers, in a ring of two slots a side.
ghost use Rattle.std.specs.Prelude.{false};

use dp_ring::{Busy, Ring, RingItem};
use std::test::Fail;

#[derive(Drop)]
struct Letter(char);

impl RingItem for Letter {
    type Key = u8;

    ghost is_put = { λ _ _ _. Unit {0} };

    ghost is_given = { λ _ _ _. Unit {0} };

    ghost is_ending = { λ _ _. false };
}

#[test]
fn an_item_waits_for_its_ticket(rt: HostRuntime) -> Result<(), Fail> {
    let (mut producer, seats, mut consumer) = Ring::new::<Letter>(rt.alloc(), &0, 2, 1)?;
    let Some(mut worker) = seats.into_vec().pop() else {
        panic!(&rt; "no worker")
    };
    let (Ok(()), Ok(()), Err(waiting)) = (
        producer.put(Letter('a')),
        producer.put(Letter('b')),
        producer.put(Letter('c')),
    ) else {
        panic!(&rt; "not the third item alone waits")
    };
    assert!(&rt; waiting.item.0 == 'c' && waiting.word == 1);
    assert_eq!(&rt; worker.draw(), 0);
    let Ok(first) = worker.take() else {
        panic!(&rt; "a isn't there")
    };
    assert!(&rt; first.0 == 'a');
    assert!(&rt; matches!(consumer.take(), Err(Busy { word: 0 })));
    let (Ok(()), Ok(())) = (producer.put(waiting.item), worker.give(first)) else {
        panic!(&rt; "no slot is free")
    };
    assert!(&rt; matches!(consumer.take(), Ok(Letter('a'))));
    assert_eq!(&rt; worker.draw(), 1);
    let Ok(second) = worker.take() else {
        panic!(&rt; "b isn't there")
    };
    assert!(&rt; second.0 == 'b');
    let Ok(()) = worker.give(second) else {
        panic!(&rt; "b can't be given")
    };
    assert!(&rt; matches!(consumer.take(), Ok(Letter('b'))));
    Ok(())
}

#[test]
fn a_ticket_may_wait_for_its_item(rt: HostRuntime) -> Result<(), Fail> {
    let (_producer, seats, _consumer) = Ring::new::<Letter>(rt.alloc(), &0, 2, 1)?;
    let Some(mut worker) = seats.into_vec().pop() else {
        panic!(&rt; "no worker")
    };
    assert_eq!(&rt; worker.draw(), 0);
    assert!(&rt; matches!(worker.take(), Err(Busy { word: 0 })));
    Ok(())
}
