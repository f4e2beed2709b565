//! What the desk writes.

ghost use Rattle.std.specs.Prelude.{◌≡◌, ◌<◌};
ghost use Rattle.std.specs.Option.{ForSome};
ghost use Rattle.desk_answers.specs.Duties.{writes_of};
ghost use Rattle.kernel_model.specs.Application.{Booted};
ghost use Rattle.kernel_state.specs.Meaning.{booted_of};
ghost use Rattle.ns_ram.specs.Lane.{IsInRam};
ghost use Rattle.play_model.specs.Play.{with_writes};
ghost use Rattle.trace_player.specs.Playing.{HasLane, terms_in};
ghost use Rattle.trace_player.specs.Position.{Position, StandsAt};

use core_machine::machines_stand;
use desk_answers::ResultIn;
use msg_args::{origin_at, ret_at};
use trace_player::Player;

/// `TEE_ORIGIN_TEE` of the TEE Client API.
const ORIGIN_TEE: u32 = 3;

/// Writes the result of a bottom half or a stop into its argument, in the RAM that a processor sees.
pub fn write_result(player: &mut Player, cpu: u8, told: Option<ResultIn>)
    requires lane { HasLane player.old.machine cpu }
    requires ram { ForSome told (λ wanted. IsInRam wanted.arg 32) }
    ensures writes { (boot : Booted) (at : Position) → StandsAt boot at player.old
        → StandsAt boot (record at { play = with_writes cpu (writes_of told) at.play }) player.new }
    ensures boot { booted_of player.new.machine.at_work.core ≡ booted_of player.old.machine.at_work.core }
    ensures terms { terms_in player.new ≡ terms_in player.old }
{
    machines_stand();
    let Some(ResultIn { arg, ret }) = told else {
        return;
    };
    player.write(cpu, ret_at(arg), &ret.to_le_bytes());
    player.write(cpu, origin_at(arg), &ORIGIN_TEE.to_le_bytes());
}
