ghost use Rattle.std.specs.Prelude.{◌≡◌};
ghost use Rattle.intake.specs.Batch.{header_fault};

use crate::IntakeFault;
use dnswire::Message;

/// The first fault of the header.
pub(crate) fn header_fault(message: &Message) -> Option<IntakeFault>
    ensures { result ≡ header_fault message.now }
{
    let (flags, rcode) = (message.flags, message.rcode);
    if !flags.is_answer() {
        Some(IntakeFault::NotResponse)
    } else if flags.has_tc() {
        Some(IntakeFault::Truncated)
    } else if rcode != 0 && rcode != 3 {
        Some(IntakeFault::Rcode(rcode))
    } else if !flags.has_ad() {
        Some(IntakeFault::NotAuthentic)
    } else {
        None
    }
}
