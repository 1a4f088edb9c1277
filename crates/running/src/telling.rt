//! The texts of `--help` and `--version`.
ghost use Rattle.std.specs.Prelude.{◌≡◌};
ghost use Rattle.outside_core.specs.Fault.{Rose};
ghost use Rattle.running.specs.Help.{IsTextCut, IsTextWritten};
ghost use Rattle.running.specs.Run.{IsOfReplay};

use crate::status::Status;
use outside_core::{Sink, write_whole};

/// Writes the text.
pub fn tell<K: Sink>(sink: &mut K, text: &str) -> Status
    ensures ends { IsOfReplay result }
    ensures good { result ≡ Status.Good
        → IsTextWritten text.now (K.written sink.old) (K.written sink.new) }
    ensures cut { result ≡ Status.WriteFault
        → IsTextCut text.now (K.written sink.old) (K.written sink.new) }
    ensures no_fault { result ≡ Status.Good → K.faults sink.new ≡ K.faults sink.old }
    ensures write_fault { result ≡ Status.WriteFault
        → Rose (K.faults sink.old) (K.faults sink.new) }
{
    match write_whole(sink, text.as_bytes()) {
        Ok(()) => Status::Good,
        Err(_) => Status::WriteFault,
    }
}
