//! What C keeps of a policy or a link: a pointer, null where there is none.
ghost use Rattle.std.specs.Prelude.{◌≡◌, Option, Some, None, MatchResult};
ghost use Rattle.std.specs.Coded.{coded_option};
ghost use Rattle.guard_c.specs.declared.held.Held.{Held};
ghost use Rattle.guard_c.specs.Owning.{held_row, handle_owns};
ghost use Rattle.guard_c.specs.inside.Taken.{kept_of};

use crate::held::Held;
use crate::parted::Parted;
use std::alloc::Global;
use std::marker::Model;
use std::mem::replace;

/// A handle, which C keeps: a policy or a link, or nothing. `derguard.h` calls it `derguard_policy` or `derguard_link`.
#[repr(C)]
pub struct Handle {
    at: *mut u8,
    alloc: Global,
    pub ghost kept: { Option Held } by { coded_option held_row.coded },
}

impl Model for Handle {
    ghost also_owns = { λ h. handle_owns h.alloc h.at h.kept };
}

impl Handle {
    pub(crate) fn empty(alloc: Global) -> Handle
        ensures { result.kept ≡ None }
    {
        Handle {
            at: std::ptr::null_mut(),
            alloc,
        }
    }

    pub(crate) fn of(held: Parted<Held, Global>) -> Handle
        ensures { result.kept ≡ Some held.value }
    {
        let Parted { at, alloc } = held;
        Handle {
            at: at as *mut u8,
            alloc,
        }
    }

    pub(crate) fn parted(self) -> Result<Parted<Held, Global>, Global>
        ensures { MatchResult result (λ p. self.kept ≡ Some p.value) (λ _. self.kept ≡ None) }
    {
        let Handle { at, alloc } = self;
        if at.is_null() {
            Err(alloc)
        } else {
            Ok(Parted {
                at: at as *mut Held,
                alloc,
            })
        }
    }

    /// What the handle holds, which is empty then; None where it held nothing.
    pub(crate) fn take(&mut self, alloc: Global) -> Option<Box<Held>>
        ensures held { kept_of result ≡ self.old.kept }
        ensures empty { self.new.kept ≡ None }
    {
        match replace(self, Handle::empty(alloc)).parted() {
            Ok(held) => Some(held.whole()),
            Err(_) => None,
        }
    }

    /// Has the handle hold this, in place of what it held.
    pub(crate) fn fill(&mut self, held: Box<Held>)
        ensures { self.new.kept ≡ Some held.value }
    {
        *self = sent(Handle::of(Parted::of(held)));
    }

    /// Has the handle hold again what was taken out of it.
    pub(crate) fn give_back(&mut self, taken: Option<Box<Held>>)
        requires { self.old.kept ≡ None }
        ensures { self.new.kept ≡ kept_of taken }
    {
        if let Some(held) = taken {
            self.fill(held);
        }
    }
}

/// The value as it is. The bound asks for a proof that it may go to another thread.
fn sent<T: Send>(value: T) -> T
    ensures { result ≡ value }
{
    value
}

impl Drop for Handle {
    fn drop(self) {
        if let Ok(held) = self.parted() {
            drop(held.whole());
        }
    }
}

// C may hand a handle from thread to thread: a policy is plain data, and its owners are counted for any thread.
unsafe impl Send for Handle {}
