//! A ring that hands items over by ticket: a producer puts them in order, workers draw tickets and take, change and
//! give them, and a consumer takes them in the order of the tickets.
#![tactic(auto)]

mod busy;
mod consumer;
mod desk;
mod item;
mod law;
mod plays;
mod producer;
mod ring;
mod turns;
mod view;
mod worker;

pub use busy::{Busy, PutBusy};
pub use consumer::ConsumerSeat;
pub use item::RingItem;
pub use law::turns_are_ruled;
pub use producer::ProducerSeat;
pub use ring::Ring;
pub use view::{Phase, Standing, View};
pub use worker::WorkerSeat;
