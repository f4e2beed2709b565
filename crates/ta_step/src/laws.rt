//! What holds of the definitions themselves.
ghost use Rattle.std.specs.Prelude.{◌≡◌, ℕ, ◌+◌, ◌*◌, ◌<◌, ◌≤◌, List, [], IsSome, Some, None, slice_get, slice_index_or};
ghost use Rattle.ta_isa.specs.declared.image.Image.{Image as AnyImage};
ghost use Rattle.ta_isa.specs.declared.image.Instr.{Instr as AnyInstr};
ghost use Rattle.ta_isa.specs.Spelling.{IsValid};
ghost use Rattle.ta_step.specs.Addresses.{load, ranges};
ghost use Rattle.ta_step.specs.Examples.{Examples};
ghost use Rattle.ta_step.specs.Requests.{NamesRange};
ghost use Rattle.ta_step.specs.Runs.{Ran, request_of, runs, runs_twice};
ghost use Rattle.ta_step.specs.Shape.{SameShape};
ghost use Rattle.ta_step.specs.State.{State};
ghost use Rattle.ta_step.specs.Step.{step};

/// Two grants of steps, one after the other, are one grant of their sum.
pub fn sum_of_grants()
    ensures { (code : List AnyInstr) (m n : ℕ) (s : State) → runs code (m + n) s ≡ runs_twice code m n s }
{}

/// The ranges of addresses begin at multiples of 0x10000000: at 0 the instance's memory, and behind it the
/// buffers of the parameters, in their order.
pub fn ranges_begin()
    ensures { (s : State) (number place : ℕ) → place < 0x10000000
        → load s (0x10000000 * number + place) ≡ slice_get (slice_index_or (ranges s) number []) place }
{}

/// A run leaves as many registers and bytes of memory, parameters of the same types with as many bytes, the
/// login, and the cancellation flag.
pub fn shape_of_runs()
    ensures { (code : List AnyInstr) (n : ℕ) (s : State) (ran : Ran) → runs code n s ≡ Some ran → SameShape s ran.state }
{}

/// A machine that waits for no answer waits, after a run, for the answer to the request that it stopped with,
/// and for none where it stopped otherwise.
pub fn asked_of_runs()
    ensures { (code : List AnyInstr) (n : ℕ) (s : State) (ran : Ran) → s.asked ≡ None → runs code n s ≡ Some ran
        → ran.state.asked ≡ request_of ran.stop }
{}

/// A run uses no more steps than it is granted, and at least one of some.
pub fn steps_of_runs()
    ensures { (code : List AnyInstr) (n : ℕ) (s : State) (ran : Ran) → runs code n s ≡ Some ran
        → (ran.steps ≤ n) × (0 < n → 0 < ran.steps) }
{}

/// The bytes that a request names are all in one range of the machine that stopped for it.
pub fn requests_name_ranges()
    ensures { (code : List AnyInstr) (n : ℕ) (s : State) (ran : Ran) → runs code n s ≡ Some ran
        → NamesRange ran.stop ran.state }
{}

/// A machine whose image is valid comes to one outcome at each step.
pub fn one_outcome()
    ensures { (image : AnyImage) (s : State) → IsValid image → IsSome (step image.code s) }
{}

/// Examples of the definitions, worked out by hand.
pub fn worked_examples()
    ensures { Examples }
{}
