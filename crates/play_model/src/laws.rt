//! What holds of the definitions themselves.
ghost use Rattle.play_model.specs.Coming.{ItemsCanCome, TracesHavePlays};
ghost use Rattle.play_model.specs.Examples.{Examples};
ghost use Rattle.play_model.specs.Laws.{EntriesAreRead, ExitsCome, FixedAnswersPass, PlaysGoOn, TracesArePlayed};
ghost use Rattle.play_model.specs.Ram.{RamIsKept};
ghost use Rattle.play_model.specs.Realms.{HistoriesHaveRealms};
ghost use Rattle.play_model.specs.TrueToKernel.{PlaysAreTrue};

/// The history of each play is legal and holds the items of each processor in their order. In it a return from RPC
/// resumes exactly the call that is suspended in its slot for its client, or answers ERESUME and changes nothing;
/// ETHREAD_LIMIT comes exactly where a new call finds no slot free; and sessions were answered as their own machine, or
/// that of their group, answers to their events, each session that was ever kept on its instance among them.
pub fn traces_are_played()
    ensures { TracesArePlayed }
{}

/// In one record, the play of each trace on a boot that a core can have is true to the written kernel: besides what
/// `traces_are_played` says, each exit is the kernel's at its place, a return from RPC that finds no call changes
/// nothing but the history, and realms were answered as `histories_have_realms` says.
pub fn plays_are_true_to_the_kernel()
    ensures { PlaysAreTrue }
{}

/// In each legal history, and so in that of each play, a realm, which is one session or all sessions of an application, was
/// answered as the machine of a group which has what happened to the realm alone. Each session that was ever kept is in a
/// realm, also one whose open waited for an instance that was gone.
pub fn histories_have_realms()
    ensures { HistoriesHaveRealms }
{}

/// An entry that can follow on the kernel, with reads that each have the bytes of its processor's RAM, is the one that
/// comes in the play.
pub fn entries_are_read()
    ensures { EntriesAreRead }
{}

/// A processor that has an exit goes out with it.
pub fn exits_come()
    ensures { ExitsCome }
{}

/// A processor that goes out with a fixed answer, as ERESUME is, changes nothing of a play but its own part of the
/// kernel, the history and what is printed.
pub fn fixed_answers_pass()
    ensures { FixedAnswersPass }
{}

/// A play goes on from where its first items end, and what they have printed stays at the front of its lines.
pub fn plays_go_on()
    ensures { PlaysGoOn }
{}

/// No item makes the RAM of a processor shorter, wherever it writes: where RAM has each byte at first, there is RAM with each
/// byte for each processor behind all items.
pub fn ram_is_kept()
    ensures { RamIsKept }
{}

/// Behind the first items of a sound trace, none of which was refused, the next one can come: its processor is outside
/// where it comes in, and inside where it goes out.
pub fn items_can_come()
    ensures { ItemsCanCome }
{}

/// What can come comes, and each sound trace has a play, whatever RAM holds at first, and a text.
pub fn traces_have_plays()
    ensures { TracesHavePlays }
{}

/// Examples of the definitions, and plays of written scripts with what they print.
pub fn worked_examples()
    ensures { Examples }
{}
