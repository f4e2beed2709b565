ghost use Rattle.std.specs.Prelude.{◌≡◌};
ghost use Rattle.live_play.specs.Conversation.{status};

use line_port::Finish;

/// The exit status of a program that has held a conversation which ended so.
pub fn status_of(finish: Finish) -> u8
    ensures { result ≡ status finish }
{
    match finish {
        Finish::Over => 0,
        Finish::ReadFault => 4,
        Finish::WriteFault => 5,
        Finish::Memory => 6,
    }
}
