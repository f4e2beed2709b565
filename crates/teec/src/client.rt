ghost use Rattle.std.specs.Prelude.{◌≡◌, ◌≤◌, ℕ, [], length, All, None, Some, Err, IfOk, IfErr, OnOk, OnErr, IsErrOf};
ghost use Rattle.msg_args.specs.Attribute.{IsAllowed};
ghost use Rattle.teec.specs.declared.fault.TeecFault.{TeecFault as AnyFault};
ghost use Rattle.teec.specs.Bounds.{most_smcs};
ghost use Rattle.teec.specs.Calls.{Call, call_of, close_call, invoke_call, open_call};
ghost use Rattle.teec.specs.Causes.{HasItsCause};
ghost use Rattle.teec.specs.Client.{HasRun, KeepsFault, ends_client, limits_of, made_since};
ghost use Rattle.teec.specs.Results.{opened_in, result_in};
ghost use Rattle.teec.specs.Operation.{IsSendable, Sends, operation_back};
ghost use Rattle.teec.specs.Runs.{IsPrepared, Scene, scene_of};

use crate::argument::{close_argument, invoke_argument, open_argument};
use crate::fault::TeecFault;
use crate::limits::Limits;
use crate::line::Line;
use crate::operation::Operation;
use crate::outcome::{Opened, opened_in, result_in};
use crate::params::{put_buffers, take_outputs};
use crate::places::ARGUMENT_AT;
use msg_args::MsgArg;
use smc_port::World;
use std::alloc::Global;
use std::marker::Model;
use supplicant::Supplicant;
use ta_params::CallResult;
use uuid::Uuid;

/// The parameters of an operation.
const PARAMS: u32 = 4;

/// A client of the TEE Client API over a port, as client 0, with the nil UUID and public login. It makes one call after the
/// other.
#[derive(Drop)]
pub struct Client<W: World> {
    line: Line<W>,
    retries: u32,
    rounds: u32,
    failed: Option<TeecFault>,
}

impl<W: World> Model for Client<W> {
    ghost use Rattle.std.specs.Prelude.{◌≤◌};
    ghost use Rattle.teec.specs.Client.{Calling};

    ghost Value = { Calling W };

    ghost view = { λ c. record {
      world = c.line.world;
      storage = c.line.supplicant;
      retries = c.retries;
      rounds = c.rounds;
      failed = c.failed;
    } };

    ghost invariant = { λ c. (1 ≤ c.retries) × (1 ≤ c.rounds) };
}

impl<W: World> Client<W> {
    /// A client over a port, whose supplicant has no files. It makes a call `retries` times at most where no thread is free,
    /// and answers `rounds` RPC returns of a call at most. Takes no memory.
    pub fn new(alloc: Global, world: W, retries: u32, rounds: u32) -> Client<W>
        requires retries { 1 ≤ retries }
        requires rounds { 1 ≤ rounds }
        ensures { result ≡ record {
          world = world;
          storage = record { files = []; descriptors = []; times = 0 };
          retries = retries;
          rounds = rounds;
          failed = None;
        } }
    {
        Client {
            line: Line {
                world,
                supplicant: Supplicant::new(alloc),
            },
            retries,
            rounds,
            failed: None,
        }
    }

    /// The port.
    pub fn world(&self) -> &W
        ensures { result.now ≡ self.now.world }
    {
        &self.line.world
    }

    /// Opens a session with an application, and sends all four parameters of the operation.
    pub fn open_session(
        &mut self,
        alloc: Global,
        uuid: Uuid,
        op: &mut Operation,
    ) -> Result<Opened, TeecFault>
        requires fits { IsSendable op.old }
        // A client that has failed answers its fault, and nothing has changed.
        ensures failed { (fault : AnyFault) → self.old.failed ≡ Some fault → result ≡ Err fault }
        ensures makes_none { (fault : AnyFault) → self.old.failed ≡ Some fault → self.new ≡ self.old }
        // In another, the call is made SMC by SMC, with what is written and answered between them.
        ensures run { self.old.failed ≡ None → HasRun (limits_of self.old op.old.cancel_after) (open_call uuid op.old 4)
            (scene_of (W.ram self.old.world) self.old.storage) (W.made self.old.world) result
            (scene_of (W.ram self.new.world) self.new.storage) (W.made self.new.world) (W.has_room self.new.world) }
        // Why it ended.
        ensures causes { self.old.failed ≡ None → HasItsCause (limits_of self.old op.old.cancel_after)
            (made_since (W.made self.old.world) (W.made self.new.world)) (W.has_room self.new.world) result }
        // How many SMCs were made, whatever was answered.
        ensures few { length (made_since (W.made self.old.world) (W.made self.new.world)) ≤ most_smcs (limits_of self.old op.old.cancel_after) }
        // What stands afterwards.
        ensures keeps { self.old.failed ≡ None → KeepsFault result self.new }
        ensures retried_stays { (number : ℕ) → IsErrOf result (TeecFault.Retried number) → self.new.storage ≡ self.old.storage }
        ensures tries { self.new.retries ≡ self.old.retries }
        ensures answers { self.new.rounds ≡ self.old.rounds }
        ensures told { IfOk result (λ told. told ≡ opened_in (W.ram self.new.world)) }
        ensures op_stays { OnErr result (op.new ≡ op.old) }
        ensures outputs { OnOk result (op.new ≡ operation_back (W.ram self.new.world) 2 op.old) }
    {
        self.open_session_sending(alloc, uuid, op, PARAMS)
    }

    /// Opens a session with an application, and sends the first `sent` parameters of the operation, of which the others are
    /// empty.
    pub fn open_session_sending(
        &mut self,
        alloc: Global,
        uuid: Uuid,
        op: &mut Operation,
        sent: u32,
    ) -> Result<Opened, TeecFault>
        requires fits { IsSendable op.old }
        requires sent { Sends op.old sent }
        // A client that has failed answers its fault, and nothing has changed.
        ensures failed { (fault : AnyFault) → self.old.failed ≡ Some fault → result ≡ Err fault }
        ensures makes_none { (fault : AnyFault) → self.old.failed ≡ Some fault → self.new ≡ self.old }
        // In another, the call is made SMC by SMC, with what is written and answered between them.
        ensures run { self.old.failed ≡ None → HasRun (limits_of self.old op.old.cancel_after) (open_call uuid op.old sent)
            (scene_of (W.ram self.old.world) self.old.storage) (W.made self.old.world) result
            (scene_of (W.ram self.new.world) self.new.storage) (W.made self.new.world) (W.has_room self.new.world) }
        // Why it ended.
        ensures causes { self.old.failed ≡ None → HasItsCause (limits_of self.old op.old.cancel_after)
            (made_since (W.made self.old.world) (W.made self.new.world)) (W.has_room self.new.world) result }
        // How many SMCs were made, whatever was answered.
        ensures few { length (made_since (W.made self.old.world) (W.made self.new.world)) ≤ most_smcs (limits_of self.old op.old.cancel_after) }
        // What stands afterwards.
        ensures keeps { self.old.failed ≡ None → KeepsFault result self.new }
        ensures retried_stays { (number : ℕ) → IsErrOf result (TeecFault.Retried number) → self.new.storage ≡ self.old.storage }
        ensures tries { self.new.retries ≡ self.old.retries }
        ensures answers { self.new.rounds ≡ self.old.rounds }
        ensures told { IfOk result (λ told. told ≡ opened_in (W.ram self.new.world)) }
        ensures op_stays { OnErr result (op.new ≡ op.old) }
        ensures outputs { OnOk result (op.new ≡ operation_back (W.ram self.new.world) 2 op.old) }
    {
        self.check_alive()?;
        let arg = open_argument(uuid, op, sent);
        self.run(alloc, &arg, op, 0)?;
        take_outputs(&self.line.world, 2, op);
        Ok(opened_in(&self.line.world))
    }

    /// Invokes a function in a session, and sends all four parameters of the operation.
    pub fn invoke(
        &mut self,
        alloc: Global,
        session: u32,
        func: u32,
        op: &mut Operation,
    ) -> Result<CallResult, TeecFault>
        requires fits { IsSendable op.old }
        // A client that has failed answers its fault, and nothing has changed.
        ensures failed { (fault : AnyFault) → self.old.failed ≡ Some fault → result ≡ Err fault }
        ensures makes_none { (fault : AnyFault) → self.old.failed ≡ Some fault → self.new ≡ self.old }
        // In another, the call is made SMC by SMC, with what is written and answered between them.
        ensures run { self.old.failed ≡ None → HasRun (limits_of self.old op.old.cancel_after) (invoke_call session func op.old 4)
            (scene_of (W.ram self.old.world) self.old.storage) (W.made self.old.world) result
            (scene_of (W.ram self.new.world) self.new.storage) (W.made self.new.world) (W.has_room self.new.world) }
        // Why it ended.
        ensures causes { self.old.failed ≡ None → HasItsCause (limits_of self.old op.old.cancel_after)
            (made_since (W.made self.old.world) (W.made self.new.world)) (W.has_room self.new.world) result }
        // How many SMCs were made, whatever was answered.
        ensures few { length (made_since (W.made self.old.world) (W.made self.new.world)) ≤ most_smcs (limits_of self.old op.old.cancel_after) }
        // What stands afterwards.
        ensures keeps { self.old.failed ≡ None → KeepsFault result self.new }
        ensures retried_stays { (number : ℕ) → IsErrOf result (TeecFault.Retried number) → self.new.storage ≡ self.old.storage }
        ensures tries { self.new.retries ≡ self.old.retries }
        ensures answers { self.new.rounds ≡ self.old.rounds }
        ensures told { IfOk result (λ told. told ≡ result_in (W.ram self.new.world)) }
        ensures op_stays { OnErr result (op.new ≡ op.old) }
        ensures outputs { OnOk result (op.new ≡ operation_back (W.ram self.new.world) 0 op.old) }
    {
        self.invoke_sending(alloc, session, func, op, PARAMS)
    }

    /// Invokes a function in a session, and sends the first `sent` parameters of the operation, of which the others are empty.
    pub fn invoke_sending(
        &mut self,
        alloc: Global,
        session: u32,
        func: u32,
        op: &mut Operation,
        sent: u32,
    ) -> Result<CallResult, TeecFault>
        requires fits { IsSendable op.old }
        requires sent { Sends op.old sent }
        // A client that has failed answers its fault, and nothing has changed.
        ensures failed { (fault : AnyFault) → self.old.failed ≡ Some fault → result ≡ Err fault }
        ensures makes_none { (fault : AnyFault) → self.old.failed ≡ Some fault → self.new ≡ self.old }
        // In another, the call is made SMC by SMC, with what is written and answered between them.
        ensures run { self.old.failed ≡ None → HasRun (limits_of self.old op.old.cancel_after) (invoke_call session func op.old sent)
            (scene_of (W.ram self.old.world) self.old.storage) (W.made self.old.world) result
            (scene_of (W.ram self.new.world) self.new.storage) (W.made self.new.world) (W.has_room self.new.world) }
        // Why it ended.
        ensures causes { self.old.failed ≡ None → HasItsCause (limits_of self.old op.old.cancel_after)
            (made_since (W.made self.old.world) (W.made self.new.world)) (W.has_room self.new.world) result }
        // How many SMCs were made, whatever was answered.
        ensures few { length (made_since (W.made self.old.world) (W.made self.new.world)) ≤ most_smcs (limits_of self.old op.old.cancel_after) }
        // What stands afterwards.
        ensures keeps { self.old.failed ≡ None → KeepsFault result self.new }
        ensures retried_stays { (number : ℕ) → IsErrOf result (TeecFault.Retried number) → self.new.storage ≡ self.old.storage }
        ensures tries { self.new.retries ≡ self.old.retries }
        ensures answers { self.new.rounds ≡ self.old.rounds }
        ensures told { IfOk result (λ told. told ≡ result_in (W.ram self.new.world)) }
        ensures op_stays { OnErr result (op.new ≡ op.old) }
        ensures outputs { OnOk result (op.new ≡ operation_back (W.ram self.new.world) 0 op.old) }
    {
        self.check_alive()?;
        let arg = invoke_argument(session, func, op, sent);
        self.run(alloc, &arg, op, session)?;
        take_outputs(&self.line.world, 0, op);
        Ok(result_in(&self.line.world))
    }

    /// Closes a session.
    pub fn close(&mut self, alloc: Global, session: u32) -> Result<CallResult, TeecFault>
        // A client that has failed answers its fault, and nothing has changed.
        ensures failed { (fault : AnyFault) → self.old.failed ≡ Some fault → result ≡ Err fault }
        ensures makes_none { (fault : AnyFault) → self.old.failed ≡ Some fault → self.new ≡ self.old }
        // In another, the call is made SMC by SMC, with what is written and answered between them.
        ensures run { self.old.failed ≡ None → HasRun (limits_of self.old None) (close_call session)
            (scene_of (W.ram self.old.world) self.old.storage) (W.made self.old.world) result
            (scene_of (W.ram self.new.world) self.new.storage) (W.made self.new.world) (W.has_room self.new.world) }
        // Why it ended.
        ensures causes { self.old.failed ≡ None → HasItsCause (limits_of self.old None)
            (made_since (W.made self.old.world) (W.made self.new.world)) (W.has_room self.new.world) result }
        // How many SMCs were made, whatever was answered.
        ensures few { length (made_since (W.made self.old.world) (W.made self.new.world)) ≤ most_smcs (limits_of self.old None) }
        // What stands afterwards.
        ensures keeps { self.old.failed ≡ None → KeepsFault result self.new }
        ensures retried_stays { (number : ℕ) → IsErrOf result (TeecFault.Retried number) → self.new.storage ≡ self.old.storage }
        ensures tries { self.new.retries ≡ self.old.retries }
        ensures answers { self.new.rounds ≡ self.old.rounds }
        ensures told { IfOk result (λ told. told ≡ result_in (W.ram self.new.world)) }
    {
        self.check_alive()?;
        self.line
            .put_argument(ARGUMENT_AT, &close_argument(session));
        self.finish(alloc, None, session)?;
        Ok(result_in(&self.line.world))
    }

    /// Answers the fault that has ended the client, if one has.
    fn check_alive(&self) -> Result<(), TeecFault>
        ensures tries { 1 ≤ self.now.retries }
        ensures alive { OnOk result (self.now.failed ≡ None) }
        ensures ended { IfErr result (λ fault. self.now.failed ≡ Some fault) }
    {
        match self.failed {
            Some(fault) => Err(fault),
            None => Ok(()),
        }
    }

    /// Makes a call with an operation in a session, until it ends.
    fn run(
        &mut self,
        alloc: Global,
        arg: &MsgArg,
        op: &Operation,
        session: u32,
    ) -> Result<(), TeecFault>
        requires alive { self.old.failed ≡ None }
        requires count { arg.now.head.count ≡ length arg.now.params.items }
        requires params { All IsAllowed arg.now.params.items }
        requires fits { IsSendable op.now }
        ensures run { HasRun (limits_of self.old op.now.cancel_after) (call_of arg.now op.now session)
            (scene_of (W.ram self.old.world) self.old.storage) (W.made self.old.world) result
            (scene_of (W.ram self.new.world) self.new.storage) (W.made self.new.world) (W.has_room self.new.world) }
        ensures storage { IfErr result (λ fault. ends_client fault ≡ None → self.new.storage ≡ self.old.storage) }
        ensures failed { KeepsFault result self.new }
        ensures retries { self.new.retries ≡ self.old.retries }
        ensures rounds { self.new.rounds ≡ self.old.rounds }
    {
        put_buffers(&mut self.line.world, op);
        self.line.put_argument(ARGUMENT_AT, arg);
        self.finish(alloc, op.cancel_after, session)
    }

    /// Makes the call that stands in RAM, until it ends, and keeps a fault that ends the client.
    fn finish(
        &mut self,
        alloc: Global,
        cancel_after: Option<u32>,
        session: u32,
    ) -> Result<(), TeecFault>
        requires alive { self.old.failed ≡ None }
        ensures run { (call : Call) (old : Scene)
            → IsPrepared call session old (scene_of (W.ram self.old.world) self.old.storage)
            → HasRun (limits_of self.old cancel_after) call old (W.made self.old.world) result
            (scene_of (W.ram self.new.world) self.new.storage) (W.made self.new.world) (W.has_room self.new.world) }
        ensures storage { IfErr result (λ fault. ends_client fault ≡ None → self.new.storage ≡ self.old.storage) }
        ensures failed { KeepsFault result self.new }
        ensures retries { self.new.retries ≡ self.old.retries }
        ensures rounds { self.new.rounds ≡ self.old.rounds }
    {
        let limits = Limits {
            retries: self.retries,
            rounds: self.rounds,
            cancel_after,
        };
        let ended = self.line.call(alloc, &limits, session);
        if let Err(fault) = ended
            && fault.ends_client()
        {
            self.failed = Some(fault);
        }
        ended
    }
}
