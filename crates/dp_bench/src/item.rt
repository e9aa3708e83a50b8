//! The items that go through.
ghost use Rattle.std.specs.Prelude.{◌≡◌, false};

use dp_lane::LaneItem;
use dp_ring::RingItem;

/// Each item is the number of its place, from 0.
#[derive(Drop)]
pub struct Item(pub u64);

impl LaneItem for Item {
    type Key = u8;

    ghost is_item = { λ _ k x. x.0 ≡ k };

    ghost is_ending = { λ _ _. false };
}

impl RingItem for Item {
    type Key = u8;

    ghost is_put = { λ _ t x. x.0 ≡ t };

    ghost is_given = { λ _ t x. x.0 ≡ t };

    ghost is_ending = { λ _ _. false };
}
