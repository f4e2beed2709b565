//! A client that plays the calls of a script on a core.
ghost use Rattle.std.specs.Prelude.{◌≡◌, [], None, Err};
ghost use Rattle.client_play.specs.Played.{Client as Place};
ghost use Rattle.client_runner.specs.Playing.{CanMake, CanStop, IsAt, IsOver, Makes, Plays, player_of, stop_for};
ghost use Rattle.client_text.specs.declared.script.ScriptCall.TheVariants as call;

use crate::lines::push_line;
use crate::operations::operation_of;
use crate::outcome::Outcome;
use crate::sessions::OpenedNames;
use client_text::{ScriptCall, ScriptParam};
use core_port::{CorePort, OfBoot};
use std::alloc::Global;
use ta_params::CopiedParams;
use teec::{Client, TeecFault};
use uuid::Uuid;
use word_parts::Stop;

/// How often a call is made where no thread is free.
const RETRIES: u32 = 1;

/// How many RPC returns of a call are answered.
const ROUNDS: u32 = 65_536;

/// Why a call that came to a fault stops the play. Over a core no call finds no thread, none has more RPC returns than it may,
/// and none is answered strangely.
fn stop_of(fault: TeecFault) -> Stop
    requires { CanStop fault }
    ensures { result ≡ stop_for fault }
{
    match fault {
        TeecFault::Spent => Stop::Full,
        TeecFault::Memory => Stop::Memory,
        TeecFault::Retried(_) | TeecFault::Rounds(_) | TeecFault::Strange(_) => unreachable!(),
    }
}

/// A client over the core of a boot, and the names that it has opened.
#[derive(Drop)]
pub(crate) struct ScriptPlayer<B: OfBoot> {
    client: Client<CorePort<B>>,
    names: OpenedNames,
}

impl<B: OfBoot> ScriptPlayer<B> {
    /// A client that has made no call yet. Takes no memory.
    pub(crate) fn new(alloc: Global, port: CorePort<B>) -> ScriptPlayer<B>
        ensures client { result.client ≡ record {
          world = port;
          storage = record { files = []; descriptors = []; times = 0 };
          retries = 1;
          rounds = 65536;
          failed = None;
        } }
        ensures names { result.names ≡ [] }
        ensures over { IsOver B.booted result.client.world }
    {
        // What is known of each port.
        port.recall();
        ScriptPlayer {
            client: Client::new(alloc, port, RETRIES, ROUNDS),
            names: OpenedNames::new(alloc),
        }
    }

    /// What is known of its port, whatever was called: it is over a core of this boot, whose history is that of its SMCs.
    fn is_over(&self)
        ensures { IsOver B.booted self.now.client.world }
    {
        self.client.world().recall();
    }

    /// Opens a session under a name.
    fn open(
        &mut self,
        alloc: Global,
        name: &[u8],
        uuid: Uuid,
        params: &[ScriptParam],
    ) -> Result<Outcome, Stop>
        requires { CanMake B.booted (call.Open name.now uuid params.now) (player_of self.old.client self.old.names) }
        ensures { (place : Place) → IsAt B.booted place (player_of self.old.client self.old.names)
            → Makes B.booted place (call.Open name.now uuid params.now) result (player_of self.new.client self.new.names) }
    {
        let Ok(mut op) = operation_of(alloc, params, None) else {
            return Err(Stop::Memory);
        };
        let sent = params.len() as u32;
        let opened = self.client.open_session_sending(alloc, uuid, &mut op, sent);
        self.is_over();
        match opened {
            Ok(opened) => {
                self.names.add(alloc, name, opened.session)?;
                Ok(Outcome {
                    told: opened.result,
                    params: op.params,
                })
            }
            Err(fault) => Err(stop_of(fault)),
        }
    }

    /// Invokes a function in the session of a name.
    fn invoke(
        &mut self,
        alloc: Global,
        name: &[u8],
        func: u32,
        cancel_after: Option<u32>,
        params: &[ScriptParam],
    ) -> Result<Outcome, Stop>
        requires { CanMake B.booted (call.Invoke name.now func cancel_after params.now) (player_of self.old.client self.old.names) }
        ensures { (place : Place) → IsAt B.booted place (player_of self.old.client self.old.names)
            → Makes B.booted place (call.Invoke name.now func cancel_after params.now) result (player_of self.new.client self.new.names) }
    {
        let Ok(mut op) = operation_of(alloc, params, cancel_after) else {
            return Err(Stop::Memory);
        };
        let sent = params.len() as u32;
        let session = self.names.session_of(name);
        let told = self
            .client
            .invoke_sending(alloc, session, func, &mut op, sent);
        self.is_over();
        match told {
            Ok(told) => Ok(Outcome {
                told,
                params: op.params,
            }),
            Err(fault) => Err(stop_of(fault)),
        }
    }

    /// Closes the session of a name.
    fn close(&mut self, alloc: Global, name: &[u8]) -> Result<Outcome, Stop>
        requires { CanMake B.booted (call.Close name.now) (player_of self.old.client self.old.names) }
        ensures { (place : Place) → IsAt B.booted place (player_of self.old.client self.old.names)
            → Makes B.booted place (call.Close name.now) result (player_of self.new.client self.new.names) }
    {
        let session = self.names.session_of(name);
        let told = self.client.close(alloc, session);
        self.is_over();
        match told {
            Ok(told) => Ok(Outcome {
                told,
                params: CopiedParams::none(),
            }),
            Err(fault) => Err(stop_of(fault)),
        }
    }

    /// Makes a call of the script.
    fn make(&mut self, alloc: Global, call: &ScriptCall) -> Result<Outcome, Stop>
        requires { CanMake B.booted call.now (player_of self.old.client self.old.names) }
        ensures { (place : Place) → IsAt B.booted place (player_of self.old.client self.old.names)
            → Makes B.booted place call.now result (player_of self.new.client self.new.names) }
    {
        match call {
            ScriptCall::Open { name, uuid, params } => {
                self.open(alloc, name.as_slice(), *uuid, params.as_slice())
            }
            ScriptCall::Invoke {
                name,
                func,
                cancel_after,
                params,
            } => self.invoke(
                alloc,
                name.as_slice(),
                *func,
                *cancel_after,
                params.as_slice(),
            ),
            ScriptCall::Close { name } => self.close(alloc, name.as_slice()),
        }
    }

    /// Makes a call of the script, and appends its line. Where there is no room for one of its SMCs, nothing is printed; at want of
    /// memory a part of a line may stand behind the lines.
    pub(crate) fn play_call(
        &mut self,
        alloc: Global,
        call: &ScriptCall,
        lines: &mut Vec<u8>,
    ) -> Result<(), Stop>
        requires { CanMake B.booted call.now (player_of self.old.client self.old.names) }
        ensures plays { (place : Place) → IsAt B.booted place (player_of self.old.client self.old.names)
            → Plays B.booted place call.now result (player_of self.new.client self.new.names) lines.old.items lines.new.items }
        ensures never_fails { result ≡ Err Stop.Failed → ⊥ }
    {
        let outcome = self.make(alloc, call)?;
        push_line(alloc, lines, call, &outcome.told, &outcome.params)?;
        Ok(())
    }
}
