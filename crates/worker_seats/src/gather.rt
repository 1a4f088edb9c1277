ghost use Rattle.std.specs.Prelude.{◌≡◌, ℕ, ◌++◌, [], List, length, true, false, OnOk, OnErr};
ghost use Rattle.outside_core.specs.Told.{append_told};
ghost use Rattle.outside_core.specs.Fault.{Rose};
ghost use Rattle.worker_seats.specs.Gather.{Gathers, IsPartWritten};

use outside_core::{Failed, Sink, write_whole};

/// As many octets are gathered at most before they are written.
const ROOM: usize = 65_536;

// Puts the piece behind what was gathered, and writes that where there is no room for the piece.
pub(crate) fn put<K: Sink>(sink: &mut K, gathered: &mut Vec<u8>, piece: &[u8]) -> Result<(), Failed>
    ensures put { OnOk result (Gathers gathered.old.items piece.now gathered.new.items
        (K.written sink.old) (K.written sink.new)) }
    ensures part { OnErr result (IsPartWritten (gathered.old.items ++ piece.now)
        (K.written sink.old) (K.written sink.new)) }
    ensures faults { OnOk result (K.faults sink.new ≡ K.faults sink.old) }
    ensures failed { OnErr result (Rose (K.faults sink.old) (K.faults sink.new)) }
{
    if keep(gathered, piece) {
        return Ok(());
    }
    match flush(sink, gathered) {
        Ok(()) => put_first(sink, gathered, piece),
        Err(failed) => Err(failed),
    }
}

// Puts the piece where nothing is gathered.
fn put_first<K: Sink>(sink: &mut K, gathered: &mut Vec<u8>, piece: &[u8]) -> Result<(), Failed>
    requires { gathered.old.items ≡ [] }
    ensures put { OnOk result (Gathers [] piece.now gathered.new.items
        (K.written sink.old) (K.written sink.new)) }
    ensures part { OnErr result (IsPartWritten piece.now
        (K.written sink.old) (K.written sink.new)) }
    ensures faults { OnOk result (K.faults sink.new ≡ K.faults sink.old) }
    ensures failed { OnErr result (Rose (K.faults sink.old) (K.faults sink.new)) }
{
    if keep(gathered, piece) {
        return Ok(());
    }
    write_whole(sink, piece)
}

// Writes what was gathered.
pub(crate) fn flush<K: Sink>(sink: &mut K, gathered: &mut Vec<u8>) -> Result<(), Failed>
    ensures empty { OnOk result (gathered.new.items ≡ []) }
    ensures written { OnOk result
        (K.written sink.new ≡ append_told (K.written sink.old) gathered.old.items) }
    ensures part { OnErr result (IsPartWritten gathered.old.items
        (K.written sink.old) (K.written sink.new)) }
    ensures faults { OnOk result (K.faults sink.new ≡ K.faults sink.old) }
    ensures failed { OnErr result (Rose (K.faults sink.old) (K.faults sink.new)) }
{
    match write_whole(sink, gathered) {
        Ok(()) => {
            gathered.clear();
            Ok(())
        }
        Err(failed) => Err(failed),
    }
}

// Puts the piece behind what was gathered where there is room and memory for it.
fn keep(gathered: &mut Vec<u8>, piece: &[u8]) -> bool
    ensures kept { result ≡ true → gathered.new.items ≡ gathered.old.items ++ piece.now }
    ensures same { result ≡ false → gathered.new.items ≡ gathered.old.items }
{
    gathered.len().saturating_add(piece.len()) <= ROOM && gathered.extend_from_slice(piece).is_ok()
}
