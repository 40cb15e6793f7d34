ghost use Rattle.std.specs.Prelude.{◌≡◌, Option, None, Some, List};
ghost use Rattle.std.specs.Option.{MatchOption};
ghost use Rattle.lattice_algebra.specs.Operator.{Operator};
ghost use Rattle.sg_c.specs.Held.{held};

use crate::kept::Kept;
use crate::loose::Loose;
use std::alloc::Global;
use std::marker::Model;
use std::mem;
use std::ptr::null_mut;

/// What C keeps of a group: a pointer that is null, or that of a box of its own. C knows nothing of what is behind it.
#[repr(C)]
pub struct Handle {
    at: *mut u8,
    alloc: Global,
    pub ghost group: { Option (List Operator) },
}

impl Model for Handle {
    ghost use Rattle.sg_c.specs.Held.{held};

    ghost also_owns = { λ h. held h.alloc h.at h.group };
}

// What it holds is its own, so it may go to another thread.
unsafe impl Send for Handle {}

impl Handle {
    /// A handle that holds no group.
    fn empty(alloc: Global) -> Handle
        ensures { result.group ≡ None }
    {
        Handle {
            at: null_mut(),
            alloc,
        }
    }

    fn of(group: Loose<Kept, Global>) -> Handle
        ensures { result.group ≡ Some group.value }
    {
        let Loose { at, alloc } = group;
        Handle {
            at: at as *mut u8,
            alloc,
        }
    }

    fn into_loose(self) -> Option<Loose<Kept, Global>>
        ensures { MatchOption result (self.group ≡ None) (λ group. self.group ≡ Some group.value) }
    {
        let Handle { at, alloc } = self;
        if at.is_null() {
            None
        } else {
            Some(Loose {
                at: at as *mut Kept,
                alloc,
            })
        }
    }

    /// The group that is held. The handle then holds none.
    pub fn take(&mut self, alloc: Global) -> Option<Box<Kept>>
        ensures taken { MatchOption result (self.old.group ≡ None)
            (λ group. self.old.group ≡ Some group.value) }
        ensures empty { self.new.group ≡ None }
    {
        let held = mem::replace(self, Handle::empty(alloc));
        match held.into_loose() {
            Some(group) => Some(group.into_box()),
            None => None,
        }
    }

    /// Holds the group. One that was held before is freed.
    pub fn put(&mut self, group: Box<Kept>)
        ensures { self.new.group ≡ Some group.value }
    {
        let held = mem::replace(self, Handle::of(Loose::of(group)));
        if let Some(before) = held.into_loose() {
            drop(before.into_box());
        }
    }
}
