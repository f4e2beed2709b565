ghost use Rattle.std.specs.Prelude.{◌≡◌, []};
ghost use Rattle.ta_instances.specs.Instance.{given_back, held_by, killed, made};

use frame_pool::Pages;
use tee_storage::Handles;
use uuid::Uuid;

/// An instance of a trusted application.
#[derive(Drop)]
pub struct Instance {
    /// The UUID of its application.
    pub uuid: Uuid,
    /// Whether one of its entry points has panicked.
    pub dead: bool,
    /// The thread slot of the call that holds it, if one does.
    pub holder: Option<u8>,
    /// Its memory, which a native application has none of.
    pub memory: Option<Pages>,
    /// Its open objects.
    pub objects: Handles,
}

impl Instance {
    /// An instance that is alive and that no call holds, with no open objects.
    pub(crate) fn new(uuid: Uuid, memory: Option<Pages>) -> Instance
        ensures { result ≡ made uuid memory }
    {
        Instance {
            uuid,
            dead: false,
            holder: None,
            memory,
            objects: Handles::new(),
        }
    }

    /// Lets the call of a slot hold it: gives the memory, and moves the open objects into those of the call.
    pub(crate) fn hold(&mut self, slot: u8, objects: &mut Handles) -> Option<Pages>
        ensures memory { result ≡ self.old.memory }
        ensures objects { objects.new ≡ self.old.objects }
        ensures after { self.new ≡ held_by slot self.old }
    {
        self.holder = Some(slot);
        self.objects.move_to(objects);
        self.memory.take()
    }

    /// Puts memory and open objects back, and nobody holds it.
    pub(crate) fn give_back(&mut self, memory: Option<Pages>, objects: &mut Handles)
        ensures after { self.new ≡ given_back memory objects.old self.old }
        ensures objects { objects.new ≡ [] }
    {
        self.holder = None;
        self.memory = memory;
        objects.move_to(&mut self.objects);
    }

    /// What is left of it after a panic: nobody holds it, and it has neither memory nor open objects.
    pub(crate) fn kill(&mut self)
        ensures { self.new ≡ killed self.old }
    {
        self.dead = true;
        self.holder = None;
        self.memory = None;
        self.objects.clear();
    }
}
