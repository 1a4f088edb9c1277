ghost use Rattle.std.specs.Prelude.{◌≡◌, ℕ, ◌<◌, length, take, OnOk, OnErr};
ghost use Rattle.outside_core.specs.Fault.{Rose};
ghost use Rattle.outside_core.specs.Told.{append_told};

use crate::slices::rest_of;
use crate::{Failed, Sink};

/// Writes all the octets, in as many calls as the sink wants.
pub fn write_whole<K: Sink>(sink: &mut K, octets: &[u8]) -> Result<(), Failed>
    ensures written { OnOk result
        (K.written sink.new ≡ append_told (K.written sink.old) octets.now) }
    ensures faults { OnOk result (K.faults sink.new ≡ K.faults sink.old) }

    // A strict prefix was written before the failure.
    ensures part { OnErr result ((n : ℕ) × (n < length octets.now)
        × (K.written sink.new ≡ append_told (K.written sink.old) (take n octets.now))) }
    ensures failed { OnErr result (Rose (K.faults sink.old) (K.faults sink.new)) }
{
    let mut at = 0;
    while at < octets.len() {
        match sink.write(rest_of(octets, at)) {
            Ok(count) => at += count,
            Err(failed) => return Err(failed),
        }
    }
    Ok(())
}
