use base::NoMemory;
use kernel_state::Application;
use ta_params::Login;

/// What a call is settled as, by a test that failed: with a result that no application returned.
#[derive(Drop)]
pub enum Settled {
    /// A call of no application and no session.
    Call(u32),
    /// An open of this application, with the login that its argument named.
    Open(Application, Login, u32),
    /// An invoke in the named session.
    Invoke(u32),
}

/// Why the tests of a call went no further.
#[derive(Drop)]
pub enum Halt {
    /// One of them failed, and settles the call.
    Settled(Settled),
    /// Want of memory: nothing is decided.
    Memory,
}

impl From<NoMemory> for Halt {
    ghost use Rattle.std.specs.Prelude.{◌≡◌};
    ghost use Rattle.new_calls.specs.declared.halt.Halt.TheVariants.{Memory};

    ghost from_gives = { λ _ halt. halt ≡ Memory };

    fn from(_refused: NoMemory) -> Halt {
        Halt::Memory
    }
}

impl From<Settled> for Halt {
    ghost use Rattle.std.specs.Prelude.{◌≡◌};
    ghost use Rattle.new_calls.specs.declared.halt.Halt.TheVariants as halt;

    ghost from_gives = { λ settled stop. stop ≡ halt.Settled settled };

    fn from(settled: Settled) -> Halt {
        Halt::Settled(settled)
    }
}
