//! Lists of any type, so that proofs of these functions have none of the parts that a pass or a port is let go by.
use std::alloc::Global;

/// The list with one more. None without one, and for want of memory.
pub fn with_one<T: Drop>(mut list: Vec<T>, one: Option<T>) -> Option<Vec<T>> {
    list.push(one?).ok()?;
    Some(list)
}

/// The first of each, then the second of each, and so on.
pub fn in_step<'a, A: Drop, B>(
    alloc: Global,
    first: Vec<A>,
    second: &'a mut [B],
) -> Option<Vec<(A, &'a mut B)>> {
    first.into_iter().zip(second).collect(alloc).ok()
}
