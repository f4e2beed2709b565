//! What holds of the definitions.

ghost use Rattle.client_play.specs.Examples.{Examples};
ghost use Rattle.client_play.specs.Laws.{CallsAreMadeAlike, PreparesAlike};
ghost use Rattle.client_play.specs.Outputs.{EachOutputIsPrinted, OutputsArePrinted};
ghost use Rattle.client_play.specs.PlayLaws.{PlaysAreOfTraces, ResultsAreToldAlone, ScriptsHavePlays};
ghost use Rattle.client_play.specs.Served.{RunsAreCalls, RunsFail, RunsStop, SmcsAreServed};

/// What is written before an SMC, and what the supplicant makes of a message, is what a client does there over any port.
pub fn prepares_alike()
    ensures { PreparesAlike }
{}

/// SMCs whose events follow on a history, each with the writes of its exit, were served by the core, one after the other.
pub fn smcs_are_served()
    ensures { SmcsAreServed }
{}

/// A client's run over a port whose SMCs a core has served is its call on the core, where it ends.
pub fn runs_are_calls()
    ensures { RunsAreCalls }
{}

/// Where it fails by its answers, the call fails.
pub fn runs_fail()
    ensures { RunsFail }
{}

/// Where its next SMC has no room, the call stops there.
pub fn runs_stop()
    ensures { RunsStop }
{}

/// A call that returns is a client's run of SMCs that the core has served.
pub fn calls_are_made_alike()
    ensures { CallsAreMadeAlike }
{}

/// The history of each play is that of a trace, whose items are the client's writes to the RAM of processor 0 and its SMCs
/// there, and the play of that trace is true to the written kernel: so it is legal from the script's boot.
pub fn plays_are_of_traces()
    ensures { PlaysAreOfTraces }
{}

/// Each script that is within its limits has a play: no call of its client fails. Each SMC comes, finds a slot free where it is a
/// new call, and is answered OK or an RPC return; and there are fewer RPC returns than a client answers.
pub fn scripts_have_plays()
    ensures { ScriptsHavePlays }
{}

/// Each printed result of a session whose application's sessions share no instance is that of the session's `Ended` reply
/// to this very call, at the call's last exit, which the session's own machine gives to its events alone; and where the
/// application returned the result, what the line has of the call's parameters tells the outputs of that reply, of memory
/// where its size is below 2^32.
pub fn results_are_told_alone()
    ensures { ResultsAreToldAlone }
{}

/// What tells the outputs of a reply is printed as these are, where each size is below 2^32: each value, and of memory the
/// size with as many bytes.
pub fn outputs_are_printed()
    ensures { OutputsArePrinted }
{}

/// What tells one output of a reply is printed as that is, where its size is below 2^32, whatever the other three are: where
/// the size of one is 2^32 or more, the others are printed so still.
pub fn each_output_is_printed()
    ensures { EachOutputIsPrinted }
{}

/// Plays of small scripts, worked out by hand.
pub fn worked_examples()
    ensures { Examples }
{}
