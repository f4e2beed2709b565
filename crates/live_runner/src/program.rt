//! What a program of a conversation does, by the words of its command line.

ghost use Rattle.std.specs.Prelude.{◌≡◌, None};
ghost use Rattle.command_line.specs.Words.{HasWords};
ghost use Rattle.live_play.specs.Answer.{platform};
ghost use Rattle.live_runner.specs.Program.{CountsFaults, HoldsTo, IsRefused};
ghost use Rattle.native_tas.specs.Table.{drivers, entries};

use crate::conversing::live;
use command_line::CommandLine;
use line_port::{Finish, Port};
use live_play::status_of;
use native_tas::Natives;
use ports::{Put, Sink};
use std::alloc::Global;

/// What is written where there are words.
const USAGE: &[u8] = b"usage: optee_live\n";

/// The status of a call with words.
const WRONG_USAGE: u8 = 2;

/// Writes the usage line.
fn refuse<S: Sink>(out: &mut S) -> u8
    ensures { IsRefused result (S.held out.old) (S.held out.new) (S.faults out.old) (S.faults out.new) }
{
    match out.put(USAGE) {
        Put::Done => WRONG_USAGE,
        Put::Failed => status_of(Finish::WriteFault),
        Put::Memory => status_of(Finish::Memory),
    }
}

/// Does what a program of a conversation is called for, and gives its exit status. Words are refused by the usage line, which
/// is put into the sink, with status 2, 5 where the sink fails, and 6 at want of memory; without words a conversation is held over the
/// port to its end, as by [`live`], with the status of that end: 0, 4, 5 or 6.
pub fn run<P: Port, S: Sink>(
    alloc: Global,
    line: &CommandLine,
    natives: &Natives,
    port: &mut P,
    out: &mut S,
) -> u8
    requires { P.finish port.old ≡ None }

    // ---- With words.
    ensures refuses { HasWords line.now →
        IsRefused result (S.held out.old) (S.held out.new) (S.faults out.old) (S.faults out.new) }
    ensures hears_nothing { HasWords line.now → port.new ≡ port.old }

    // ---- Without words.
    ensures holds { (HasWords line.now → ⊥) → HoldsTo (platform (entries natives.now) (drivers natives.now))
        (P.told port.old) (P.told port.new) (P.finish port.new) result }
    ensures counts { (HasWords line.now → ⊥) → CountsFaults result (P.faults port.old) (P.faults port.new) }
    ensures puts_nothing { (HasWords line.now → ⊥) → out.new ≡ out.old }
{
    if line.has_words() {
        refuse(out)
    } else {
        status_of(live(alloc, natives, port))
    }
}
