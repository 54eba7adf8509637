//! Writing a reply.

ghost use Rattle.std.specs.Prelude.{◌≡◌, ◌≢◌, ◌≤◌, IfOk, Err};
ghost use Rattle.rx_base.specs.Outside.{Rose};
ghost use Rattle.rx_feed.specs.Outside.{Writes};

use crate::fault::Fault;
use rx_base::Sink;
use rx_transfer::write_text;

/// Writes a text and returns the status if the sink took all of it.
pub(crate) fn write_reply<K: Sink>(out: &mut K, text: &[u8], status: u8) -> Result<u8, Fault>
    ensures written { Writes (K.written out.old) (K.written out.new) text.now status result }
    ensures told { IfOk result (λ told. told ≡ status) }
    ensures not_source { result ≢ Err Fault.Source }
    ensures failed { result ≡ Err Fault.Sink → Rose (K.faults out.old) (K.faults out.new) }
    ensures counted { K.faults out.old ≤ K.faults out.new }
{
    if write_text(out, text) {
        Ok(status)
    } else {
        Err(Fault::Sink)
    }
}
