//! What C holds of an open file: a pointer to its box.

ghost use Rattle.std.specs.Prelude.{◌≡◌};
ghost use Rattle.addr2line_c.specs.declared.open_file.OpenFile.{OpenFile};
ghost use Rattle.addr2line_c.specs.Handles.{file_coded};

use crate::box_parts::BoxParts;
use crate::open_file::OpenFile;
use std::alloc::Global;
use std::marker::Model;

/// A handle, which C keeps: its first word is 1 while a file is open, and 0 while none is.
#[repr(C)]
pub struct Handle {
    pub(crate) opened: u32,
    at: *mut u8,
    pub ghost file: { OpenFile } by { file_coded },
}

impl Model for Handle {
    ghost use Rattle.addr2line_c.specs.Handles.{owns_file};

    ghost also_owns = { λ h. owns_file h.opened h.at h.file };
}

impl Handle {
    ghost use Rattle.std.specs.Borrow.{sem};
    ghost use Rattle.addr2line_c.specs.Lending.{LeavesHandle, LendsFile};

    // Whether a file is open, as the first word says.
    pub(crate) fn state(&mut self) -> u32
        ensures state { result ≡ self.old.opened }
        ensures same { self.new ≡ self.old }
    {
        self.opened
    }

    // Opens a closed handle.
    pub(crate) fn put(&mut self, file: Box<OpenFile>)
        requires { self.old.opened ≡ 0 }
        ensures open { self.new.opened ≡ 1 }
        ensures file { self.new.file ≡ file.value }
    {
        self.put_parts(BoxParts::of(file));
    }

    fn put_parts(&mut self, parts: BoxParts<OpenFile, Global>)
        requires { self.old.opened ≡ 0 }
        ensures open { self.new.opened ≡ 1 }
        ensures file { self.new.file ≡ parts.content }
    {
        let BoxParts { pointer, alloc: _ } = parts;
        self.at = pointer as *mut u8;
        self.opened = 1;
    }

    // Closes an open handle, and hands out its file.
    pub(crate) fn take(&mut self, alloc: Global) -> Box<OpenFile>
        requires { self.old.opened ≡ 1 }
        ensures closed { self.new.opened ≡ 0 }
        ensures file { result.value ≡ self.old.file }
    {
        self.take_parts(alloc).into_box()
    }

    fn take_parts(&mut self, alloc: Global) -> BoxParts<OpenFile, Global>
        requires { self.old.opened ≡ 1 }
        ensures closed { self.new.opened ≡ 0 }
        ensures file { result.content ≡ self.old.file }
    {
        self.opened = 0;
        BoxParts {
            pointer: self.at as *mut OpenFile,
            alloc,
        }
    }

    // Lends the file of an open handle, which stays open.
    pub(crate) fn file_mut(&mut self) -> &mut OpenFile
        requires { self.old.opened ≡ 1 }
        ensures* after { sem 𝓛 (LendsFile self.entry result) }
        ensures file { result.now ≡ self.old.file }
    {
        unsafe { &mut *(self.at as *mut OpenFile) }
    }

    // Lends the file of an open handle to be read: it stays as it is.
    pub(crate) fn file(&mut self) -> &OpenFile
        requires { self.old.opened ≡ 1 }
        ensures* after { sem 𝓛 (LeavesHandle self.entry (λ left. left ≡ self.old.file)) }
        ensures file { result.now ≡ self.old.file }
    {
        &*self.file_mut()
    }
}
