ghost use Rattle.std.specs.Prelude.{◌≡◌, ◌+◌, ◌<◌, ◌==◌, if◌then◌else◌, None, IfOk, OnOk, OnErr};
ghost use Rattle.kernel_state.specs.Blanks.{IsBlank, with_box};

use arrayvec::ArrayVec;
use base::NoMemory;
use frame_pool::Pages;
use job_model::CallKind;
use rpc_cont::{CallEntry, Cont};
use std::alloc::Global;
use std::marker::Model;
use ta_params::codes::TEE_SUCCESS;
use ta_params::{CallResult, Login};
use tee_storage::Key;

/// Boxes of calls that have finished, kept for new ones, so that a call is neither moved nor cleared as it begins. Contracts
/// see how many there are, and how many can be kept.
#[derive(Drop)]
pub struct Blanks {
    boxes: Vec<Box<Cont<Pages>>>,
}

impl Model for Blanks {
    ghost use Rattle.std.specs.Prelude.{vec_capacity, vec_len};
    ghost use Rattle.kernel_state.specs.Blanks.{Boxes, HoldsBlanks};

    ghost Value = { Boxes };

    ghost view = { λ blanks. record { kept = vec_len blanks.boxes; room = vec_capacity blanks.boxes } };

    ghost invariant = { λ blanks. HoldsBlanks blanks.boxes };
}

impl Blanks {
    /// No box, and room for so many.
    pub fn new(alloc: Global, room: u8) -> Result<Blanks, NoMemory>
        requires { 0 < room }
        ensures { IfOk result (λ blanks. blanks ≡ record { kept = 0; room = room }) }
    {
        Ok(Blanks {
            boxes: Vec::with_capacity(alloc, usize::from(room))?,
        })
    }

    /// Makes a box where there is none.
    pub fn make_one(&mut self, alloc: Global) -> Result<(), NoMemory>
        ensures made { OnOk result (self.new ≡ (if self.old.kept == 0 then record self.old { kept = 1 } else self.old)) }
        ensures lacks { OnErr result (self.old.kept ≡ 0) }
        ensures stays { OnErr result (self.new ≡ self.old) }
    {
        if self.boxes.is_empty() {
            let cont = Box::new(alloc, blank(alloc))?;
            self.boxes.push_reserved(cont);
        }
        Ok(())
    }

    /// Takes a box, in which nothing of a call is there yet but the boot's key. Takes no memory.
    pub fn take(&mut self, key: Key) -> Box<Cont<Pages>>
        requires { 0 < self.old.kept }
        ensures blank { IsBlank result.value }
        ensures key { result.value.key ≡ key }
        ensures left { self.old ≡ record self.new { kept = self.new.kept + 1 } }
    {
        let mut cont = self.boxes.pop().unwrap();
        cont.key = key;
        cont
    }

    /// Keeps the box of a call that has finished, where there is room for it. Takes no memory.
    pub fn put(&mut self, mut cont: Box<Cont<Pages>>)
        ensures { self.new ≡ with_box self.old }
    {
        wipe(&mut cont);
        if self.boxes.len() < self.boxes.capacity() {
            self.boxes.push_reserved(cont);
        }
    }
}

/// A call of which nothing is there yet. The boot's key comes as its box is taken.
fn blank(alloc: Global) -> Cont<Pages>
    ensures { IsBlank result }
{
    Cont::settled(
        [0; 32],
        CallEntry {
            client: 0,
            kind: CallKind::Settled,
            login: Login::public(),
            context: 0,
            params: None,
            arg: 0,
            area: None,
            places: ArrayVec::new_in(alloc),
            session: 0,
            instance: 0,
        },
        CallResult::of_tee(TEE_SUCCESS),
    )
}

/// Nothing of the call is left, and all memory of it but its box is free, that of the lists in its places among it. What is
/// large is touched only where it is there.
fn wipe(cont: &mut Cont<Pages>)
    ensures { IsBlank cont.new }
{
    cont.point = None;
    cont.points.clear();
    cont.places.clear();
    cont.objects.clear();
    cont.buffer = None;
    cont.cancelled = false;
    cont.steps = 0;
    cont.done = false;
    wipe_work(cont);
}

/// Nothing is left of what the call has worked on.
fn wipe_work(cont: &mut Cont<Pages>)
    ensures { cont.new ≡ record cont.old { app = None; params = None; memory = None; machine = None; object = None; request = None } }
{
    clear(&mut cont.app);
    clear(&mut cont.params);
    clear(&mut cont.memory);
    clear(&mut cont.machine);
    clear(&mut cont.object);
    clear(&mut cont.request);
}

/// Nothing is left there. The place is written only where something is.
fn clear<T: Drop>(place: &mut Option<T>)
    ensures { place.new ≡ None }
{
    if place.is_some() {
        *place = None;
    }
}
