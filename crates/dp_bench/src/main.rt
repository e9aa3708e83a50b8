//! Hands so many numbered items through a lane between two threads, or through a ring from a producer over one or two
//! workers to a consumer, and writes whether all came in order.
#![tactic(auto)]

mod item;
mod through_lane;
mod through_ring;

use std::io::ErrorKind;
use std::{env, io};

const PLACES: u32 = 64;

fn main(rt: HostRuntime) -> io::Result<()> {
    let words: Vec<String> = env::args(&rt)?.skip(1).collect(rt.alloc())?;
    let [shape, count] = words.as_slice() else {
        return Err(io::Error::from(ErrorKind::InvalidInput));
    };
    let Ok(count) = count.parse::<u32>() else {
        return Err(io::Error::from(ErrorKind::InvalidInput));
    };
    let count = u64::from(count);
    let went = match shape.as_str() {
        "lane" => through_lane::all_items(&rt, rt.alloc(), count),
        "one-worker" => through_ring::all_items(&rt, rt.alloc(), count, false),
        "two-workers" => through_ring::all_items(&rt, rt.alloc(), count, true),
        _ => return Err(io::Error::from(ErrorKind::InvalidInput)),
    };
    match went {
        Ok(true) => println!(rt; "in order"),
        Ok(false) => Err(io::Error::from(ErrorKind::InvalidData)),
        Err(_) => Err(io::Error::from(ErrorKind::OutOfMemory)),
    }
}
