//! A heap of which one growth is refused. Threads may share it.

use std::alloc::{AllocError, Allocator};
use std::sync::atomic::{AtomicU64, Ordering};

/// Passes each growth on to the heap within, but for the one that is refused.
pub struct Refusing<B: Allocator> {
    inner: B,
    /// How many growths there are to the one that is refused, with that one; 0 where none is refused any more.
    left: AtomicU64,
}

impl<B: Allocator> Refusing<B> {
    /// A heap that refuses none.
    pub fn new(inner: B) -> Refusing<B> {
        Refusing {
            inner,
            left: AtomicU64::new(0),
        }
    }

    /// Refuses the growth of this number, counted from 1 from now on.
    pub fn refuse(&self, number: u64) {
        self.left.store(number, Ordering::SeqCst);
    }

    /// Whether the growth that was to be refused has been.
    pub fn has_refused(&self) -> bool {
        self.left.load(Ordering::SeqCst) == 0
    }
}

impl<B: Allocator> Drop for Refusing<B> {
    fn drop(self) {
        let Self { inner: _, left: _ } = self;
    }
}

/// Counts a growth, and says whether it is the one that is refused.
fn is_refused(left: &AtomicU64) -> bool {
    let seen = left.fetch_update(Ordering::SeqCst, Ordering::SeqCst, |growth| {
        growth.checked_sub(1)
    });
    matches!(seen, Ok(1))
}

unsafe impl<B: Allocator> Allocator for Refusing<B> {
    ghost dealloc_token = { λ heap ty ptr. B.dealloc_token heap.inner ty ptr };

    fn allocate(&self, size: usize, align: usize) -> Result<*mut u8, AllocError> {
        if is_refused(&self.left) {
            return Err(AllocError);
        }
        self.inner.allocate(size, align)
    }

    unsafe fn deallocate(&self, ptr: *mut u8, size: usize, align: usize) {
        self.inner.deallocate(ptr, size, align);
    }
}
