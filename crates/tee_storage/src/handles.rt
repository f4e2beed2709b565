ghost use Rattle.std.specs.Prelude.{◌≡◌, ◌<◌, ◌↔◌, true, [], None, is_none, IfSome, OnSome, length, position, slice_set};
ghost use Rattle.std.specs.List.{list_all};
ghost use Rattle.std.specs.Option.{option_copied};
ghost use Rattle.base.specs.NumberMap.{get, insert, remove};
ghost use Rattle.tee_storage.specs.Handles.{AreHandles, lowest_free, object_at};

use crate::handle::Handle;
use crate::object_file::copy_of;
use std::marker::Model;
use std::mem;

/// The most objects that an instance has open at a time.
pub const MAX_HANDLES: usize = 8;

/// The open objects of one instance, which contracts see as a finite map from the numbers 0 to 7 of their
/// handles. No call takes memory.
#[derive(Drop)]
pub struct Handles {
    /// The object of each number, if there is one.
    objects: [Option<Handle>; MAX_HANDLES],
}

impl Model for Handles {
    ghost use Rattle.std.specs.Prelude.{◌≡◌, length};
    ghost use Rattle.base.specs.NumberMap.{NumberMap};
    ghost use Rattle.tee_storage.specs.declared.handle.Handle.{Handle};
    ghost use Rattle.tee_storage.specs.Handles.{numbered_from};

    ghost Value = { NumberMap Handle };

    ghost view = { λ h. numbered_from 0 h.objects };

    ghost invariant = { λ h. length h.objects ≡ 8 };
}

impl Handles {
    /// No open objects.
    pub fn new() -> Handles
        ensures { result ≡ [] }
    {
        Handles {
            objects: [None, None, None, None, None, None, None, None],
        }
    }

    /// Whether no object is open.
    pub fn is_empty(&self) -> bool
        ensures { (result ≡ true) ↔ (self.now ≡ []) }
    {
        are_none(&self.objects)
    }

    /// Forgets all objects.
    pub fn clear(&mut self)
        ensures { self.new ≡ [] }
    {
        if !self.is_empty() {
            *self = Handles::new();
        }
    }

    /// Moves all objects over to other ones, which are forgotten. None are left.
    pub fn move_to(&mut self, others: &mut Handles)
        ensures moved { others.new ≡ self.old }
        ensures left { self.new ≡ [] }
    {
        others.clear();
        if !self.is_empty() {
            mem::swap(&mut self.objects, &mut others.objects);
        }
    }

    /// The object of the handle, if it is open.
    pub fn get(&self, number: u32) -> Option<&Handle>
        ensures handle { option_copied result ≡ get self.now number }
        ensures in_range { OnSome result (number < 8) }
        ensures handles { AreHandles self.now }
    {
        self.objects.get(number as usize)?.as_ref()
    }

    /// A copy of the object of the handle, if it is open. Takes no memory.
    pub(crate) fn copy_of(&self, number: u32) -> Option<Handle>
        ensures handle { result ≡ get self.now number }
        ensures in_range { OnSome result (number < 8) }
    {
        let object = self.get(number)?;
        Some(Handle {
            name: copy_of(&object.name),
            fd: object.fd,
            length: object.length,
            position: object.position,
            format: object.format,
        })
    }

    /// The lowest number of which no object is open, if there is one.
    pub fn lowest_free(&self) -> Option<u32>
        ensures lowest { result ≡ lowest_free self.now }
        ensures in_range { IfSome result (λ number. number < 8) }
    {
        let number = first_none(&self.objects)?;
        Some(number as u32)
    }

    /// Puts an object at a number. One that was there is forgotten.
    pub fn put(&mut self, number: u32, handle: Handle)
        requires { number < 8 }
        ensures { self.new ≡ insert self.old number handle }
    {
        self.objects[number as usize] = Some(handle);
    }

    /// Takes the object of the handle away, if it is open, and gives it.
    pub fn remove(&mut self, number: u32) -> Option<Handle>
        ensures handle { result ≡ get self.old number }
        ensures after { self.new ≡ remove self.old number }
    {
        take_at(&mut self.objects, number as usize)
    }
}

/// Whether no place has an object.
fn are_none(objects: &[Option<Handle>]) -> bool
    ensures { result ≡ list_all is_none objects.now }
{
    objects.iter().all(|object| object.is_none())
}

/// Where the first place without an object stands.
fn first_none(objects: &[Option<Handle>]) -> Option<usize>
    ensures place { result ≡ position is_none objects.now }
    ensures inside { IfSome result (λ place. place < length objects.now) }
{
    objects.iter().position(|object| object.is_none())
}

/// Takes the object at a place, where there is one.
fn take_at(objects: &mut [Option<Handle>], place: usize) -> Option<Handle>
    ensures object { result ≡ object_at objects.old place }
    ensures after { objects.new ≡ slice_set objects.old place None }
{
    if place >= objects.len() {
        return None;
    }
    objects[place].take()
}
