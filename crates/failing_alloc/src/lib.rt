//! An allocator for tests, which refuses one request of memory.
#![tactic(auto)]

use std::alloc::{AllocError, Allocator};
use std::cell::Cell;

/// An allocator that serves so many requests, refuses the next one, and serves all later ones.
///
/// A test lends it, as `&refusing`, to the calls whose growths it refuses. Each growth of a collection is
/// one request: a new block, to which the collection moves.
pub struct FailingAlloc<B: Allocator> {
    inner: B,
    left: Cell<u64>,
}

impl<B: Allocator> FailingAlloc<B> {
    /// Serves `served` requests and refuses the next one; `u64::MAX` refuses none.
    pub fn new(inner: B, served: u64) -> FailingAlloc<B> {
        FailingAlloc {
            inner,
            left: Cell::new(served),
        }
    }

    /// Counts anew: serves `served` requests and refuses the next one; `u64::MAX` refuses none.
    pub fn arm(&self, served: u64) {
        self.left.set(served);
    }

    /// How many requests it serves before it refuses one, or `u64::MAX` where it refuses none.
    pub fn left(&self) -> u64 {
        self.left.get()
    }

    /// Whether it refused a request since it was made or armed, or refuses none.
    pub fn has_refused(&self) -> bool {
        self.left.get() == u64::MAX
    }
}

impl<B: Allocator> Drop for FailingAlloc<B> {
    fn drop(self) {
        let Self { inner: _, left: _ } = self;
    }
}

// Whether this request is refused. At `u64::MAX` no request is, and nothing is counted.
fn tick(left: &Cell<u64>) -> bool {
    let now = left.get();
    if now != u64::MAX {
        left.set(now.wrapping_sub(1));
    }
    now == 0
}

unsafe impl<B: Allocator> Allocator for FailingAlloc<B> {
    ghost dealloc_token = { λ heap ty ptr. B.dealloc_token heap.inner ty ptr };

    fn allocate(&self, size: usize, align: usize) -> Result<*mut u8, AllocError> {
        if tick(&self.left) {
            return Err(AllocError);
        }
        self.inner.allocate(size, align)
    }

    unsafe fn deallocate(&self, ptr: *mut u8, size: usize, align: usize) {
        self.inner.deallocate(ptr, size, align);
    }
}

#[cfg(test)]
mod tests;
