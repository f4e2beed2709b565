//! Lines that are gathered before they are put.

ghost use Rattle.std.specs.Prelude.{◌≢◌, Err};
ghost use Rattle.word_parts.specs.Faults.{StopTellsFaults};
ghost use Rattle.word_parts.specs.Gathering.{EndsAs, PutsLines, PutsOrKeeps};

use crate::output::put_text;
use crate::stop::Stop;
use ports::{Put, Sink};

/// How many bytes of lines are put at once.
const GATHERED: usize = 1 << 16;

/// Puts lines by one call of the sink.
pub fn put_lines<K: Sink>(lines: &[u8], out: &mut K) -> Result<(), Stop>
    ensures lines { PutsLines lines.now result (K.held out.old) (K.held out.new) }
    ensures faults { StopTellsFaults result (K.faults out.old) (K.faults out.new) }
{
    match put_text(out, lines) {
        Put::Done => Ok(()),
        Put::Failed => Err(Stop::Failed),
        Put::Memory => Err(Stop::Memory),
    }
}

/// Puts the lines and lets them go, if there are enough of them.
pub fn put_if_many<K: Sink>(lines: &mut Vec<u8>, out: &mut K) -> Result<(), Stop>
    ensures lines { PutsOrKeeps lines.old.items result lines.new.items (K.held out.old) (K.held out.new) }
    ensures faults { StopTellsFaults result (K.faults out.old) (K.faults out.new) }
{
    if lines.len() < GATHERED {
        return Ok(());
    }
    put_lines(lines.as_slice(), out)?;
    lines.clear();
    Ok(())
}

/// Ends a play that an item stopped: behind a refused entry the gathered lines are put. Answers why the play stops then.
pub fn end_at<K: Sink>(stop: Stop, lines: &[u8], out: &mut K) -> Stop
    requires { stop ≢ Stop.Failed }
    ensures ends { EndsAs stop lines.now result (K.held out.old) (K.held out.new) }
    ensures faults { StopTellsFaults (Err result) (K.faults out.old) (K.faults out.new) }
{
    if stop != Stop::Full {
        return stop;
    }
    match put_lines(lines, out) {
        Ok(()) => Stop::Full,
        Err(fault) => fault,
    }
}
