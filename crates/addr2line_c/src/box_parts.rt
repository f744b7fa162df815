//! A box as its pointer and its allocator, which owns what the box did.

ghost use Rattle.std.specs.Prelude.{◌≡◌};
ghost use Rattle.std.specs.Box.Ownership.{box_owns};

use std::alloc::Allocator;
use std::marker::Model;

pub(crate) struct BoxParts<T, A: Allocator> {
    pub pointer: *mut T,
    pub alloc: A,
    pub ghost content: { T },
}

impl<T, A: Allocator> Model for BoxParts<T, A> {
    ghost also_owns = { λ p. box_owns (A.dealloc_token p.alloc) T.row p.pointer p.content };
}

impl<T, A: Allocator> BoxParts<T, A> {
    pub fn of(whole: Box<T, A>) -> BoxParts<T, A>
    where
        T: Drop,
        ensures { result.content ≡ whole.value }
    {
        let (pointer, alloc) = Box::into_raw_with_allocator(whole);
        BoxParts { pointer, alloc }
    }

    pub fn into_box(self) -> Box<T, A>
        ensures { result.value ≡ self.content }
    {
        let BoxParts { pointer, alloc } = self;
        unsafe { Box::from_raw(alloc, pointer) }
    }
}
