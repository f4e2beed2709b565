//! Playing a script: its boot, its fills, and then its calls in their order.
ghost use Rattle.std.specs.Prelude.{◌≡◌, List};
ghost use Rattle.client_runner.specs.Playing.{IsAtStart, player_of, script_of};
ghost use Rattle.client_runner.specs.Told.{IsToldOf};
ghost use Rattle.client_text.specs.Sound.{IsSoundScript};
ghost use Rattle.client_text.specs.declared.script.Script.{Script as AnyScript};
ghost use Rattle.kernel_model.specs.Application.{Native, booted};
ghost use Rattle.native_tas.specs.Table.{entries};
ghost use Rattle.trace_player.specs.Starting.{uuids_of};
ghost use Rattle.word_parts.specs.Faults.{StopTellsFaults};

use crate::player::ScriptPlayer;
use client_text::{Script, ScriptCall};
use core_port::{CorePort, OfBoot};
use native_tas::Natives;
use ports::Sink;
use std::alloc::Global;
use std::marker::Brand;
use ta_isa::Boot;
use trace_text::Fill;
use word_parts::{Stop, end_at, put_if_many, put_lines};

/// Makes the calls of a script by a client that has made none yet, and puts their lines, up to an SMC without room, a fault of
/// the sink or want of memory. Lines are gathered, and put when they take 64 KiB or more, behind the last call, and where there
/// is no room.
fn play_calls<B: OfBoot, K: Sink>(
    alloc: Global,
    player: &mut ScriptPlayer<B>,
    calls: &[ScriptCall],
    out: &mut K,
) -> Result<(), Stop>
    requires { (natives : List Native) × (script : AnyScript)
        × IsAtStart B.booted natives script calls.now (player_of player.old.client player.old.names) }
    ensures told { (natives : List Native) (script : AnyScript)
        → IsAtStart B.booted natives script calls.now (player_of player.old.client player.old.names)
        → IsToldOf natives script result (K.held out.old) (K.held out.new) }
    ensures faults { StopTellsFaults result (K.faults out.old) (K.faults out.new) }
{
    let mut lines = Vec::new(alloc);
    for call in calls {
        if let Err(stop) = player.play_call(alloc, call, &mut lines) {
            return Err(end_at(stop, lines.as_slice(), out));
        }
        put_if_many(&mut lines, out)?;
    }
    put_lines(lines.as_slice(), out)
}

/// Plays the script of this boot, with these fills and calls, and puts its lines.
fn play_booted<B: OfBoot, K: Sink>(
    alloc: Global,
    natives: &Natives,
    boot: Boot,
    fills: &[Fill],
    calls: &[ScriptCall],
    out: &mut K,
) -> Result<(), Stop>
    requires of { booted boot (entries natives.now) ≡ B.booted }
    requires sound { IsSoundScript (uuids_of (entries natives.now)) (script_of boot fills.now calls.now) }
    ensures told { IsToldOf (entries natives.now) (script_of boot fills.now calls.now) result (K.held out.old) (K.held out.new) }
    ensures faults { StopTellsFaults result (K.faults out.old) (K.faults out.new) }
{
    let Ok(port) = CorePort::<B>::booted(alloc, boot, natives, fills) else {
        return Err(Stop::Memory);
    };
    let mut player = ScriptPlayer::new(alloc, port);
    play_calls(alloc, &mut player, calls, out)
}

/// Plays a script and puts its lines, up to an SMC without room, a fault of the sink or want of memory.
pub(crate) fn play<K: Sink>(
    alloc: Global,
    natives: &Natives,
    script: Script,
    out: &mut K,
) -> Result<(), Stop>
    requires { IsSoundScript (uuids_of (entries natives.now)) script }
    ensures told { IsToldOf (entries natives.now) script result (K.held out.old) (K.held out.new) }
    ensures faults { StopTellsFaults result (K.faults out.old) (K.faults out.new) }
{
    let Script { boot, fills, calls } = script;
    let Some(boot) = boot else {
        return Ok(());
    };
    // The boot of the port's type is that of this call: proofs/playing/play/Invariants.antt picks it.
    play_booted::<Brand, K>(
        alloc,
        natives,
        boot,
        fills.as_slice(),
        calls.as_slice(),
        out,
    )
}
