//! An allocator for tests: it passes requests on to another one, and refuses one of them by its number.
#![tactic(auto)]

use std::alloc::{AllocError, Allocator};
use std::cell::Cell;

/// An allocator that refuses one request when asked to. Collections hold a `&` to it.
pub struct Refusing<B: Allocator> {
    inner: B,
    /// The number of the request to refuse, 1 for the next one. 0 after it was refused, and if none is to be.
    left: Cell<u64>,
}

impl<B: Allocator> Refusing<B> {
    /// One that refuses nothing yet.
    pub fn new(inner: B) -> Refusing<B> {
        Refusing {
            inner,
            left: Cell::new(0),
        }
    }

    /// Refuses the Nth request from here on; none if N is 0.
    pub fn refuse_nth(&self, n: u64) {
        self.left.set(n);
    }

    /// Whether the request that `refuse_nth` named is still to come.
    pub fn is_waiting(&self) -> bool {
        self.left.get() != 0
    }
}

impl<B: Allocator> Drop for Refusing<B> {
    fn drop(self) {
        let Self { inner: _, left: _ } = self;
    }
}

/// Counts a request, and returns whether it is the one that is refused.
fn is_refused(left: &Cell<u64>) -> bool {
    let number = left.get();
    left.set(number.saturating_sub(1));
    number == 1
}

unsafe impl<B: Allocator> Allocator for Refusing<B> {
    ghost dealloc_token = { λ heap ty ptr. B.dealloc_token heap.inner ty ptr };

    fn allocate(&self, size: usize, align: usize) -> Result<*mut u8, AllocError> {
        if is_refused(&self.left) {
            return Err(AllocError);
        }
        self.inner.allocate(size, align)
    }

    unsafe fn deallocate(&self, ptr: *mut u8, size: usize, align: usize) {
        self.inner.deallocate(ptr, size, align);
    }
}
