//! Handles: what C holds of a library.
ghost use Rattle.std.specs.Prelude.{◌≡◌, Option, Some, None};
ghost use Rattle.std.specs.Option.{option_map};
ghost use Rattle.papi_base.specs.Codes.{number_of};
ghost use Rattle.papi_base.specs.declared.code.Code.TheVariants as code;
ghost use Rattle.papi_c.specs.Held.{held};
ghost use Rattle.papi_calls.specs.Libraries.{LibraryView};

use crate::parts::Parts;
use papi_base::{Code, code_number};
use papi_calls::Library;
use std::alloc::Global;
use std::marker::Model;
use std::ptr::null_mut;

/// Memory was refused.
pub(crate) const ENOMEM: i32 = -2;

/// The handle has no library.
pub(crate) const ENOINIT: i32 = -16;

/// A text or a file is faulty.
#[inline(always)]
pub(crate) fn einval() -> i32
    ensures { result ≡ number_of code.Einval }
{
    code_number(Code::Einval)
}

/// What C holds of a library: null if none is open.
#[repr(C)]
pub struct Handle {
    at: *mut u8,
    alloc: Global,
    ghost library: { Option LibraryView },
}

impl Model for Handle {
    ghost also_owns = { λ h. held h.alloc h.at h.library };
}

impl Handle {
    #[inline(always)]
    pub(crate) fn shut(alloc: Global) -> Handle
        ensures { result.library ≡ None }
    {
        Handle {
            at: null_mut(),
            alloc,
        }
    }

    #[inline(always)]
    fn of_parts(parts: Parts<Library, Global>) -> Handle
        ensures { result.library ≡ Some parts.value }
    {
        let Parts { ptr, alloc } = parts;
        Handle {
            at: ptr as *mut u8,
            alloc,
        }
    }

    #[inline(always)]
    fn into_parts(self) -> Option<Parts<Library, Global>>
        ensures { option_map (λ p. p.value) result ≡ self.library }
    {
        let Handle { at, alloc } = self;
        if at.is_null() {
            return None;
        }
        Some(Parts {
            ptr: at as *mut Library,
            alloc,
        })
    }

    // Takes the library out of a handle.
    #[inline(always)]
    pub(crate) fn take(&mut self, alloc: Global) -> Option<Box<Library>>
        ensures taken { option_map (λ b. b.value) result ≡ self.old.library }
        ensures left { self.new.library ≡ None }
    {
        std::mem::replace(self, Handle::shut(alloc)).into_box()
    }

    // Puts a library into a handle; one that was open in it is closed.
    #[inline(always)]
    pub(crate) fn put(&mut self, library: Box<Library>)
        ensures { self.new.library ≡ Some library.value }
    {
        *self = Handle::of_parts(Parts::of(library));
    }

    #[inline(always)]
    pub(crate) fn into_box(self) -> Option<Box<Library>>
        ensures { option_map (λ p. p.value) result ≡ self.library }
    {
        let parts = self.into_parts()?;
        Some(parts.into_box())
    }
}

impl Drop for Handle {
    #[inline(always)]
    fn drop(self) {
        if let Some(library) = self.into_box() {
            drop(library);
        }
    }
}

/// What a call on the library of a handle gives: the library is taken out for it, and put back. If the handle is shut the function ends with
/// PAPI_ENOINIT.
macro_rules! on_library {
    ($alloc:ident, $h:ident, |$library:ident| $call:expr) => {{
        let Some(mut $library) = $h.take($alloc) else {
            return $crate::handle::ENOINIT;
        };
        let answer = $call;
        $h.put($library);
        answer
    }};
}

pub(crate) use on_library;

/// What a call with a name gives on the library of a handle. If the name is not UTF-8 the function ends with PAPI_EINVAL, and if memory is
/// refused with PAPI_ENOMEM.
macro_rules! on_library_by_name {
    ($alloc:ident, $h:ident, $name:ident, |$library:ident| $call:expr) => {{
        let Ok($name) = std::str::from_utf8($name) else {
            return $crate::handle::einval();
        };
        let Ok(answer) = $crate::handle::on_library!($alloc, $h, |$library| $call) else {
            return $crate::handle::ENOMEM;
        };
        answer
    }};
}

pub(crate) use on_library_by_name;
