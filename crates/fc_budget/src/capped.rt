//! An allocator over another, with a cap, by whatever counts.
ghost use Rattle.fc_budget.specs.Accounts.{budget_inner};

use crate::meter::Counting;
use std::alloc::{AllocError, Allocator};

/// An allocator over `inner` with a cap on the bytes that are out at once, which `meter` counts.
pub struct Capped<B: Allocator, M: Counting> {
    pub(crate) inner: B,
    pub(crate) meter: M,
}

impl<B: Allocator, M: Counting> Drop for Capped<B, M> {
    fn drop(self) {
        let Self { inner: _, meter: _ } = self;
    }
}

unsafe impl<B: Allocator, M: Counting> Allocator for Capped<B, M> {
    ghost dealloc_token = { λ heap ty ptr. B.dealloc_token (budget_inner heap) ty ptr };

    fn allocate(&self, size: usize, align: usize) -> Result<*mut u8, AllocError> {
        if !self.meter.charge(size) {
            return Err(AllocError);
        }
        let answer = self.inner.allocate(size, align);
        if let Err(AllocError) = answer {
            self.meter.refund(size);
        }
        answer
    }

    unsafe fn deallocate(&self, ptr: *mut u8, size: usize, align: usize) {
        self.meter.before_free(size);
        self.inner.deallocate(ptr, size, align);
        self.meter.after_free(size);
    }
}
