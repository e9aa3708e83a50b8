//! Memory that is freed stays with the program.
use std::alloc::Global;

/// Above this size the C library may give blocks back to the system whatever was freed before.
const LARGE: usize = 16_777_216;

/// Has memory that is freed stay with the program, where the C library is glibc.
///
/// It takes blocks above a size from the system one by one, and gives them back as soon as they are freed, so that the memory of
/// each epoch's stages would come as new pages, which the system fills with zeros. That size grows to that of such a block
/// that was freed (mallopt(3) on `M_MMAP_THRESHOLD`); so one is, which nothing is ever written to.
pub fn keep_freed_memory(alloc: Global) {
    drop(Vec::<u8>::with_capacity(alloc, LARGE));
}
