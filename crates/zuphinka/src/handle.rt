//! The handle of a pool for C: a pointer that owns the pool's box, or null.
ghost use Rattle.std.specs.Prelude.{◌≡◌, Option, Some, None};
ghost use Rattle.std.specs.Option.{option_map, MatchOption};
ghost use Rattle.zuphinka.specs.Opening.{OpenModel};
ghost use Rattle.zuphinka.specs.Holding.{holds, pool_code};

use crate::open_pool::OpenPool;
use crate::parts::Parts;
use std::alloc::Global;
use std::marker::{Model, Send};
use std::mem;
use std::ptr::null_mut;

/// A handle, by which C refers to a pool: the address of the pool, or null if there is none.
#[repr(C)]
pub struct Handle {
    at: *mut u8,
    alloc: Global,
    pub ghost held: { Option OpenModel } by { pool_code },
}

impl Model for Handle {
    ghost also_owns = { λ h. holds h.alloc h.at h.held };
}

// C may call from another thread than before, if the host orders the calls.
unsafe impl Send for Handle {}

// Returns the value, which may go to another thread.
fn sendable<T: Send>(value: T) -> T
    ensures { result ≡ value }
{
    value
}

impl Handle {
    // Returns a handle of no pool.
    fn empty(alloc: Global) -> Handle
        ensures { result.held ≡ None }
    {
        Handle {
            at: null_mut(),
            alloc,
        }
    }

    fn from_parts(parts: Parts<OpenPool, Global>) -> Handle
        ensures { result.held ≡ Some parts.value }
    {
        let Parts { at, alloc } = parts;
        Handle {
            at: at as *mut u8,
            alloc,
        }
    }

    fn into_parts(self) -> Option<Parts<OpenPool, Global>>
        ensures { option_map (λ p. p.value) result ≡ self.held }
    {
        let Handle { at, alloc } = self;
        if at.is_null() {
            None
        } else {
            Some(Parts {
                at: at as *mut OpenPool,
                alloc,
            })
        }
    }

    /// Takes the pool out of the handle, which is then empty. Returns `None` if there is none.
    pub fn take(&mut self, alloc: Global) -> Option<Box<OpenPool>>
        ensures taken { MatchOption result (self.old.held ≡ None)
            (λ b. self.old.held ≡ Some b.value) }
        ensures empty { self.new.held ≡ None }
    {
        match mem::replace(self, Handle::empty(alloc)).into_parts() {
            Some(parts) => Some(parts.into_box()),
            None => None,
        }
    }

    /// Puts a pool into an empty handle.
    pub fn put(&mut self, pool: Box<OpenPool>)
        requires empty { self.old.held ≡ None }
        ensures put { self.new.held ≡ Some pool.value }
    {
        let before = mem::replace(self, sendable(Handle::from_parts(Parts::of(pool))));
        if let Some(parts) = before.into_parts() {
            drop(parts.into_box());
        }
    }
}
