//! A place of a net in memory, where doors are bound.
ghost use Rattle.std.specs.Prelude.{◌≡◌, ◌≤◌, All};
ghost use Rattle.edge_io.specs.MemDoor.{IsUntouched};

use crate::MemDoor;
use std::alloc::{AllocError, Global};

/// A place of a [`crate::MemNet`], with the doors that are left to be bound there.
#[derive(Drop)]
pub struct MemPlace {
    /// Its name.
    pub place: String,
    /// The doors, in the order in which they are bound. No link was accepted from one or given back to it.
    pub doors: Vec<MemDoor>,
    pub ghost untouched: { All IsUntouched doors.items },
}

impl MemPlace {
    ghost use Rattle.std.specs.Prelude.{IfOk, OnOk, OnErr, take, drop, vec_len};
    ghost use Rattle.edge_io.specs.MemPlace.{AreBoundAs, LosesDoors};

    // The first `count` doors, bound at a place of that name. After want of memory some may be gone.
    fn first(
        doors: &mut Vec<MemDoor>,
        alloc: Global,
        name: &str,
        count: usize,
    ) -> Result<Vec<MemDoor>, AllocError>
        requires { count ≤ vec_len doors.old }
        ensures ok { IfOk result (λ bound. AreBoundAs name.now (take count doors.old.items) bound.items) }
        ensures left { OnOk result (doors.new.items ≡ drop count doors.old.items) }
        ensures err { OnErr result (LosesDoors doors.old.items doors.new.items) }
    {
        let mut bound = Vec::new(alloc);
        'doors: while bound.len() < count {
            let place = String::from_str(alloc, name)?;
            bound.push(doors.remove(0).bound_at(place))?;
        }
        Ok(bound)
    }

    /// Binds the first `count` doors at this place, which is called `name`. After want of memory some of
    /// them may be gone.
    pub(crate) fn bind(
        &mut self,
        alloc: Global,
        name: &str,
        count: usize,
    ) -> Result<Vec<MemDoor>, AllocError>
        requires { count ≤ vec_len self.old.doors }
        ensures ok { IfOk result (λ bound. AreBoundAs name.now (take count self.old.doors.items) bound.items) }
        ensures left { OnOk result (self.new.doors.items ≡ drop count self.old.doors.items) }
        ensures err { OnErr result (LosesDoors self.old.doors.items self.new.doors.items) }
        ensures place { self.new.place ≡ self.old.place }
    {
        MemPlace::first(&mut self.doors, alloc, name, count)
    }
}
