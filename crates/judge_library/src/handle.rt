//! What C holds of a judge.

ghost use Rattle.std.specs.Prelude.{◌≡◌, Bool, IsTrue, true, false};
ghost use Rattle.judge_library.specs.declared.held.Held.{Held};

use crate::held::Held;
use crate::loose::Loose;
use std::alloc::Global;
use std::marker::Model;
use std::{mem, ptr};

/// A judge behind a pointer, or none. C reads `first` alone, and gives the handle to one call at a time.
#[repr(C)]
#[derive(Drop)]
pub struct Handle {
    at: *mut u8,
    /// The number of the running strand's first record.
    pub first: u32,
    pub ghost is_begun: { Bool },
    pub ghost held: { Held },
}

impl Model for Handle {
    ghost use Rattle.std.specs.Prelude.{Bool};
    ghost use Rattle.judge_library.specs.declared.held.Held.{Held};
    ghost use Rattle.judge_library.specs.Holding.{judge_owns};

    ghost also_owns = { λ h. judge_owns h.at h.is_begun h.held };
}

impl Handle {
    #[inline(always)]
    pub(crate) fn empty() -> Handle
        ensures { result.is_begun ≡ false }
    {
        Handle {
            at: ptr::null_mut(),
            first: 0,
        }
    }

    #[inline(always)]
    fn of_loose(loose: Loose<Held, Global>, first: u32) -> Handle
        ensures { (result.is_begun ≡ true) × (result.held ≡ loose.value) × (result.first ≡ first) }
    {
        let Loose { at, alloc: _ } = loose;
        Handle {
            at: at as *mut u8,
            first,
        }
    }

    #[inline(always)]
    fn loose(self, alloc: Global) -> Loose<Held, Global>
        requires { IsTrue self.is_begun }
        ensures { result.value ≡ self.held }
    {
        let Handle { at, first: _ } = self;
        Loose {
            at: at as *mut Held,
            alloc,
        }
    }
}

/// Takes the judge out of the handle, which has none until `give`.
#[inline(always)]
pub(crate) fn take(alloc: Global, handle: &mut Handle) -> Box<Held, Global>
    requires { IsTrue handle.old.is_begun }
    ensures { (result.value ≡ handle.old.held) × (handle.new.is_begun ≡ false) }
{
    mem::replace(handle, Handle::empty())
        .loose(alloc)
        .into_box()
}

#[inline(always)]
pub(crate) fn give(handle: &mut Handle, held: Box<Held, Global>)
    ensures { IsTrue handle.new.is_begun × (handle.new.held ≡ held.value) × (handle.new.first ≡ held.value.judge.first) }
{
    let first = held.judge.first_record();
    *handle = Handle::of_loose(Loose::of(held), first);
}
