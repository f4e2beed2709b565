ghost use Rattle.std.specs.Prelude.{◌≡◌, ◌<◌, [], true, None, Some, IfOk, find, length};
ghost use Rattle.std.specs.Option.{IsSomeAnd, option_copied, option_map};
ghost use Rattle.std.specs.Str.{bytes_eq};
ghost use Rattle.base.specs.NumberMap.{get, insert, remove};
ghost use Rattle.ta_instances.specs.Instance.{given_back, held_by, killed, made, moved_from};
ghost use Rattle.ta_instances.specs.Instances.{AreInstances, AreNumbered, changed, is_free, is_held, least_with};

use crate::instance::Instance;
use base::{NoMemory, NumberTable};
use frame_pool::Pages;
use std::alloc::Global;
use std::marker::Model;
use tee_storage::Handles;
use uuid::Uuid;

/// The most instances that are kept at a time.
pub const MAX_INSTANCES: usize = 80;

/// The instances by their numbers.
#[derive(Drop)]
pub struct Instances {
    kept: NumberTable<Instance, MAX_INSTANCES>,
}

impl Model for Instances {
    ghost use Rattle.base.specs.NumberMap.{NumberMap};
    ghost use Rattle.ta_instances.specs.declared.instance.Instance.{Instance};
    ghost use Rattle.ta_instances.specs.Instances.{AreNumbered};

    ghost Value = { NumberMap Instance };

    ghost view = { λ i. i.kept };

    ghost invariant = { λ i. AreNumbered i.kept };
}

impl Instances {
    /// No instance. No call after this one takes memory.
    pub fn new(alloc: Global) -> Result<Instances, NoMemory>
        ensures { IfOk result (λ instances. instances ≡ []) }
    {
        let kept = NumberTable::new(alloc)?;
        Ok(Instances { kept })
    }

    /// The instance of this number, if it is kept.
    pub fn get(&self, number: u32) -> Option<&Instance>
        ensures instance { option_copied result ≡ get self.now number }
        ensures instances { AreInstances self.now }
    {
        self.kept.get(u64::from(number))
    }

    /// The instances with their numbers, in rising order of the numbers.
    pub fn entries(&self) -> &[(u64, Instance)]
        ensures entries { result.now ≡ self.now }
        ensures numbered { AreNumbered self.now }
        ensures instances { AreInstances self.now }
    {
        self.kept.entries()
    }

    /// The least number of an instance of the application with this UUID, if one is kept.
    pub fn find(&self, uuid: &Uuid) -> Option<u32>
        ensures { result ≡ least_with self.now uuid.now }
    {
        let first = first_with(self.kept.entries(), uuid)?;
        Some(first as u32)
    }

    /// Keeps a new instance, which is alive, and which no call holds.
    pub fn make(&mut self, number: u32, uuid: Uuid, memory: Option<Pages>)
        requires absent { get self.old number ≡ None }
        requires room { length self.old < 80 }
        ensures { self.new ≡ insert self.old number (made uuid memory) }
    {
        let instance = Instance::new(uuid, memory);
        self.kept.insert(u64::from(number), instance);
    }

    /// Lets the call of a slot hold an instance that no call holds, and moves its memory and open objects out.
    pub fn hold(&mut self, number: u32, slot: u8) -> (Option<Pages>, Handles)
        requires { is_free self.old number ≡ true }
        ensures moved { option_map moved_from (get self.old number) ≡ Some result }
        ensures after { self.new ≡ changed self.old number (held_by slot) }
    {
        let mut objects = Handles::new();
        let memory = self.hold_into(number, slot, &mut objects);
        (memory, objects)
    }

    /// The same, with the open objects moved into those of the call.
    pub fn hold_into(&mut self, number: u32, slot: u8, objects: &mut Handles) -> Option<Pages>
        requires { is_free self.old number ≡ true }
        ensures moved { option_map moved_from (get self.old number) ≡ Some (result, objects.new) }
        ensures after { self.new ≡ changed self.old number (held_by slot) }
    {
        let instance = self.kept.get_mut(u64::from(number));
        instance.hold(slot, objects)
    }

    /// Puts memory and open objects of an instance that a call holds back, and nobody holds it.
    pub fn give_back(&mut self, number: u32, memory: Option<Pages>, mut objects: Handles)
        requires held { is_held self.old number ≡ true }
        requires dead { IsSomeAnd (get self.old number)
            (λ instance. instance.dead ≡ true → memory ≡ None) }
        ensures { self.new ≡ changed self.old number (given_back memory objects) }
    {
        self.give_back_from(number, memory, &mut objects);
    }

    /// The same, with the open objects moved out of those of the call.
    pub fn give_back_from(&mut self, number: u32, memory: Option<Pages>, objects: &mut Handles)
        requires held { is_held self.old number ≡ true }
        requires dead { IsSomeAnd (get self.old number)
            (λ instance. instance.dead ≡ true → memory ≡ None) }
        ensures after { self.new ≡ changed self.old number (given_back memory objects.old) }
        ensures objects { objects.new ≡ [] }
    {
        let instance = self.kept.get_mut(u64::from(number));
        instance.give_back(memory, objects);
    }

    /// Kills an instance that a call holds. What was moved out of it does not come back.
    pub fn kill(&mut self, number: u32)
        requires { is_held self.old number ≡ true }
        ensures { self.new ≡ changed self.old number killed }
    {
        let instance = self.kept.get_mut(u64::from(number));
        instance.kill();
    }

    /// Takes an instance away that no call holds, and gives its memory. Its open objects are forgotten.
    pub fn remove(&mut self, number: u32) -> Option<Pages>
        requires { is_free self.old number ≡ true }
        ensures memory { option_map (λ instance. instance.memory) (get self.old number) ≡ Some result }
        ensures after { self.new ≡ remove self.old number }
    {
        let instance = self.kept.remove(u64::from(number));
        let Instance { memory, .. } = instance;
        memory
    }
}

/// The number of the first instance of the application with this UUID.
fn first_with(kept: &[(u64, Instance)], uuid: &Uuid) -> Option<u64>
    ensures { result ≡ option_map (λ entry. entry.0)
        (find (λ entry. bytes_eq entry.1.uuid uuid.now) kept.now) }
{
    let first = kept.iter().find(|entry| entry.1.uuid == *uuid)?;
    Some(first.0)
}
