//! The word `client`.

use crate::playing::play;
use client_text::{Script, read_script};
use native_tas::Natives;
use ports::Sink;
use std::alloc::Global;
use trace_text::TraceFault;
use word_parts::{InputWord, Status, status_of};

/// The most calls of a script.
const MAX_CALLS: usize = 512;

/// The word that reads the text of a client's script from the input, makes its calls by one client on the core of its boot, beside the
/// applications that are built in, and puts a line of each call that ends. A script of more than 512 calls is too long. An SMC
/// for which there is no room ends the play, with the lines of all calls before it: the 32,769th one, or one whose entry the core
/// refuses as full.
///
/// The input's grammar and then the number of its calls are tested, then it is played. Lines are gathered and put 64 KiB at a time,
/// the last of them before the status is answered; those that are not put where memory runs out are lost.
///
/// It shows the play whose text was written, which is the one that the script's calls make on its core: its history is that of the
/// client's writes and SMCs, legal from the script's boot; and each result of a session that shares no instance is the one with
/// which its own machine, fed by its own events alone, ends the call.
#[derive(Clone, Copy)]
pub struct Client;

impl InputWord for Client {
    ghost use Rattle.client_runner.specs.Client.{WasRead, client_word};
    ghost use Rattle.client_runner.specs.Scripts.{PlaysScripts};

    type Content = Script;

    ghost word = { λ it built. client_word built.natives };

    ghost Shows = { λ it built input call. PlaysScripts built.natives input call.result call.old call.new };

    ghost IsRead = { λ it built input script. WasRead built.natives input script };

    fn laws(self) {}

    fn read(self, alloc: Global, input: &[u8], natives: &Natives) -> Result<Script, TraceFault> {
        read_script(alloc, input, natives.uuids().as_slice())
    }

    fn serve<K: Sink>(
        self,
        alloc: Global,
        script: Script,
        out: &mut K,
        natives: &Natives,
    ) -> Status {
        if script.calls.len() > MAX_CALLS {
            return Status::TooLong;
        }
        status_of(play(alloc, natives, script, out))
    }
}
