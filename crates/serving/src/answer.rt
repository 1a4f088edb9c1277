//! An upstream's answer.
ghost use Rattle.std.specs.Prelude.{◌≡◌, ◌≤◌, IfOk, IfSome, OnOk};
ghost use Rattle.dnswire.specs.declared.wire_fault.WireFault.{WireFault};
ghost use Rattle.reply_core.specs.declared.rcode.TheConstants.{MAX_RCODE};
ghost use Rattle.serving.specs.Done.{IsAnswer};

use dname::OutOfMemory;
use dnswire::{Message, WireFault, read_message};
use std::alloc::{AllocError, Global};

/// The answer of a standard query that the octets are, if they are one.
pub(crate) fn answer_in(alloc: Global, octets: &[u8]) -> Result<Option<Message>, OutOfMemory>
    ensures answer { IfOk result (IsAnswer octets.now) }
    ensures rcode { IfOk result (λ answer.
        IfSome answer (λ message. message.rcode ≤ MAX_RCODE)) }
{
    match read_message(alloc, octets) {
        Ok(message) => {
            if message.flags.is_answer() {
                Ok(Some(message))
            } else {
                Ok(None)
            }
        }
        Err(fault) => {
            pass_over(fault)?;
            Ok(None)
        }
    }
}

// What can't be read is no answer.
fn pass_over(fault: WireFault) -> Result<(), OutOfMemory>
    ensures { OnOk result (fault ≡ WireFault.OutOfMemory → ⊥) }
{
    match fault {
        WireFault::Short
        | WireFault::BadCount
        | WireFault::BadName { at: _ }
        | WireFault::BadData { at: _ } => Ok(()),
        WireFault::OutOfMemory => Err(AllocError),
    }
}
