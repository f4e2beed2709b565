//! Writing a text to a sink.

ghost use Rattle.std.specs.Prelude.{◌≡◌, ◌≢◌, ◌≤◌};
ghost use Rattle.ports.specs.Port.{Rose};
ghost use Rattle.word_parts.specs.Output.{Puts};

use ports::{Put, Sink};

/// Puts a text by one call of the sink.
pub fn put_text<K: Sink>(out: &mut K, text: &[u8]) -> Put
    ensures text { Puts text.now result (K.held out.old) (K.held out.new) }
    ensures failed { result ≡ Put.Failed → Rose (K.faults out.old) (K.faults out.new) }
    ensures memory { result ≡ Put.Memory → K.held out.new ≡ K.held out.old }
    ensures count { K.faults out.old ≤ K.faults out.new }
    ensures stays { result ≢ Put.Failed → K.faults out.new ≡ K.faults out.old }
{
    out.put(text)
}
