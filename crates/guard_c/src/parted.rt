//! A box taken apart into its pointer and its allocator, and made whole again.
ghost use Rattle.std.specs.Prelude.{◌≡◌};
ghost use Rattle.std_alloc.specs.Box.Ownership.{box_owns};

use std::alloc::Allocator;
use std::marker::Model;

/// What was in a box, with the right to free its block.
pub(crate) struct Parted<T, A: Allocator> {
    pub(crate) at: *mut T,
    pub(crate) alloc: A,
    pub(crate) ghost value: { T },
}

impl<T, A: Allocator> Model for Parted<T, A> {
    ghost also_owns = { λ p. box_owns (A.dealloc_token p.alloc) T.row p.at p.value };
}

impl<T: Drop, A: Allocator> Parted<T, A> {
    /// Takes the box apart.
    pub(crate) fn of(whole: Box<T, A>) -> Parted<T, A>
        ensures { result.value ≡ whole.value }
    {
        let (at, alloc) = Box::into_raw_with_allocator(whole);
        Parted { at, alloc }
    }

    /// The box again.
    pub(crate) fn whole(self) -> Box<T, A>
        ensures { result.value ≡ self.value }
    {
        let Parted { at, alloc } = self;
        unsafe { Box::from_raw(alloc, at) }
    }
}
