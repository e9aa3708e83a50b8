//! How a region and an epoch end.
use dp_base::Fault;

/// How a region ends.
#[derive(Clone, Copy)]
pub enum RegionEnd {
    /// It was left.
    Closed,
    /// The next evaluation faults.
    Fault(Fault),
    /// The fuel is spent.
    Fuel,
}

/// How an epoch ends.
#[derive(Clone, Copy)]
pub enum EpochEnd {
    /// The region is closed.
    Closed,
    /// The next iteration isn't clean, and is to be executed again.
    Unclean,
    /// It was left before its end, and a new one may begin here.
    Left,
}
