use crate::app::ContApp;
use crate::phase::Phase;
use arrayvec::ArrayVec;
use job_model::{CallKind, EntryPoint};
use param_copy::Places;
use rpc_msgs::{Payload, Rpc, RpcBuffer};
use ta_params::{CallResult, CopiedParams, Login};
use ta_step::{Machine, TaMemory};
use tee_storage::{Handles, Key, ObjectState};

/// What a call asks the normal world for, and the bytes that go with it.
#[derive(Drop)]
pub struct Asked {
    pub rpc: Rpc,
    pub payload: Payload,
}

impl Asked {
    ghost use Rattle.std.specs.Prelude.{◌≡◌, []};

    /// Becomes this request, without bytes.
    pub(crate) fn turn_to(&mut self, rpc: Rpc)
        ensures { self.new ≡ record { rpc = rpc; payload = [] } }
    {
        self.rpc = rpc;
        self.payload.clear();
    }
}

/// A call as plain data, over its instance's memory.
#[derive(Drop)]
pub struct Cont<M: TaMemory> {
    /// `None` where it has no application.
    pub app: Option<ContApp>,
    /// Who may resume it: a7 at its entry.
    pub client: u32,
    pub kind: CallKind,
    pub login: Login,
    /// The word that the application keeps with the session: from the return of an open on, the one that it gave.
    pub context: u32,
    /// The copied parameters, while no machine has them.
    pub params: Option<CopiedParams>,
    /// The address of its argument.
    pub arg: u64,
    /// The address of the area behind its argument, for the arguments of its requests, if it has brought one along.
    pub area: Option<u64>,
    /// Where the results of its parameters go.
    pub places: Places,
    pub session: u32,
    pub instance: u32,
    /// The key of the tags of object files, which the boot brings.
    pub key: Key,
    /// The instance's memory, while no machine has it.
    pub memory: Option<M>,
    /// The entry point that it has come to: the one that runs, or else the last one that ran.
    pub point: Option<EntryPoint>,
    /// The machine at that entry point, while it runs.
    pub machine: Option<Machine<M>>,
    /// The entry points still to come. A destroy behind an open comes only where the open fails.
    pub points: ArrayVec<EntryPoint, 3>,
    /// The result so far.
    pub result: CallResult,
    /// The instance's open objects.
    pub objects: Handles,
    /// The call on an object that waits for a reply.
    pub object: Option<ObjectState>,
    /// What it asks for and has no answer to.
    pub request: Option<Asked>,
    pub buffer: Option<RpcBuffer>,
    /// Whether it has seen that it was cancelled.
    pub cancelled: bool,
    /// The steps that its application has done.
    pub steps: u128,
    pub phase: Phase,
    /// Its first exit with its result has come.
    pub done: bool,
}
