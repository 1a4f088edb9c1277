ghost use Rattle.std.specs.Prelude.{◌≡◌, ◌⊎◌, ℕ, ◌<◌, List, [], ◌++◌, length, IfSome, Some};
ghost use Rattle.outside_core.specs.Fault.{Rose};
ghost use Rattle.command_line.specs.Words.{IsCommand, AreWordsOf};
ghost use Rattle.running.specs.Run.{AsksReplay, HasGiven, HasReplayed, IsReadOn, IsReadTo, IsReplayed, IsCutShort, IsTaken, IsNoFrames, IsOfReplay, IsOfSelfrun, IsRefused, IsStatusOf};
ghost use Rattle.running.specs.declared.reading.TheConstants.{MAX_INPUT, MAX_SOURCE};
ghost use Rattle.running.specs.Summary.{IsSummed, IsSummedInPart};
ghost use Rattle.command_line.specs.declared.command.Command.TheVariants.{Selfrun, Serve, Tcp, Audit, Forward};
ghost use Rattle.command_line.specs.declared.forward_settings.ForwardSettings.{ForwardSettings};
ghost use Rattle.resolver.specs.declared.answering.Answering.{Answering};
ghost use Rattle.running.specs.Forward.{IsOfForward};
ghost use Rattle.running.specs.Help.{AsksText, IsOfText, IsTextCut, IsTextWritten};
ghost use Rattle.running.specs.Serve.{IsOfServe};
ghost use Rattle.running.specs.Connections.{IsOfTcp};
ghost use Rattle.run_audit.specs.declared.finding.Finding.TheVariants.{Yes};
ghost use Rattle.run_audit.specs.Line.{finding_line};
ghost use Rattle.running.specs.Audit.{AreUpheld, HasAudited, HasAuditedInPart, IsAuditStatusOf, IsOfAudit, IsTooLong, IsUnaudited};

use crate::commands::run;
use crate::forward::{Board, SocketOutlets};
use crate::status::Status;
use gateway::TcpGateway;
use outside_core::{OpenGate, Sink, Source, SystemClock, UdpHarbor};
use std::alloc::Global;
use std::fs::Files;
use std::net::Net;
use std::random::RandomSource;
use std::sync::Wait;
use std::thread::Threads;
use std::time;

/// Runs the words as the program does: it serves over the network's loopback ports at the moments of the machine's clock, forwards
/// over its sockets, and holds back no worker of a replay. Its clauses are those of `run` that don't speak of the harbor, the
/// gateway, what came back to them, and the outlets.
pub fn run_here<
    R: Threads + Wait + Sync,
    N: Net,
    T: time::Clock + Sync + Drop,
    M: Eprint + Files + RandomSource + Sync,
    S: Source,
    K: Sink,
>(
    rt: &R,
    alloc: Global,
    words: &[String],
    source: &mut S,
    sink: &mut K,
    net: &N,
    clock: T,
    machine: &M,
) -> Status
    ensures usage { result ≡ Status.Usage → IsCommand words.now → ⊥ }
    ensures no_command { (IsCommand words.now → ⊥)
        → (result ≡ Status.Usage) ⊎ (result ≡ Status.OutOfMemory) }
    ensures untouched { result ≡ Status.Usage
        → (source.new ≡ source.old) × (sink.new ≡ sink.old) }
    ensures good { (answering : Answering) (workers : ℕ)
        → AsksReplay words.now answering workers
        → result ≡ Status.Good
        → IfSome (S.left source.old) (λ input.
        IsReplayed answering workers input (K.written sink.old) (K.written sink.new)) }
    ensures replayed { (answering : Answering) (workers : ℕ)
        → AsksReplay words.now answering workers
        → result ≡ Status.Good
        → HasReplayed answering workers (S.left source.old) (S.left source.new)
        (K.written sink.old) (K.written sink.new) }
    ensures end { (answering : Answering) (workers : ℕ)
        → AsksReplay words.now answering workers
        → result ≡ Status.Good
        → IfSome (S.left source.old) (λ _. S.left source.new ≡ Some []) }
    ensures no_fault { result ≡ Status.Good
        → (S.faults source.new ≡ S.faults source.old)
        × (K.faults sink.new ≡ K.faults sink.old) }
    ensures read_fault { result ≡ Status.ReadFault
        → Rose (S.faults source.old) (S.faults source.new) }
    ensures write_fault { result ≡ Status.WriteFault
        → Rose (K.faults sink.old) (K.faults sink.new) }
    ensures cut { (answering : Answering) (workers : ℕ)
        → AsksReplay words.now answering workers
        → result ≡ Status.WriteFault → IfSome (S.left source.old) (λ input.
        IsCutShort answering workers input (K.written sink.old) (K.written sink.new)) }
    ensures unwritten { (result ≡ Status.ReadFault) ⊎ (result ≡ Status.OutOfMemory)
        ⊎ IsRefused result → sink.new ≡ sink.old }
    ensures read { (answering : Answering) (workers : ℕ)
        → AsksReplay words.now answering workers
        → IsOfReplay result ⊎ IsRefused result
        → IsReadOn (S.left source.old) (S.left source.new) }
    ensures read_part { (answering : Answering) (workers : ℕ)
        → AsksReplay words.now answering workers
        → (result ≡ Status.ReadFault) ⊎ (result ≡ Status.OutOfMemory)
        → HasGiven (S.left source.old) (S.left source.new) }
    ensures too_long { result ≡ Status.InputTooLong
        → IfSome (S.left source.old) (λ input. MAX_INPUT < length input) }
    ensures bad_frame { (answering : Answering) (workers : ℕ)
        → AsksReplay words.now answering workers
        → result ≡ Status.BadFrame → IfSome (S.left source.old) (IsNoFrames workers) }
    ensures taken { (answering : Answering) (workers : ℕ)
        → AsksReplay words.now answering workers
        → IsOfReplay result → IfSome (S.left source.old) (IsTaken workers) }
    ensures complete { (answering : Answering) (workers : ℕ)
        → AsksReplay words.now answering workers
        → (input : List ℕ) → S.left source.old ≡ Some input
        → (Rose (S.faults source.old) (S.faults source.new) → ⊥)
        → (Rose (K.faults sink.old) (K.faults sink.new) → ⊥)
        → IsStatusOf workers input result ⊎ (result ≡ Status.OutOfMemory) }
    ensures summed { (seed names queries : ℕ)
        → AreWordsOf words.now (Selfrun seed names queries) → result ≡ Status.Good
        → IsSummed seed names queries (K.written sink.old) (K.written sink.new) }
    ensures summed_in_part { (seed names queries : ℕ)
        → AreWordsOf words.now (Selfrun seed names queries) → result ≡ Status.WriteFault
        → IsSummedInPart seed names queries (K.written sink.old) (K.written sink.new) }
    ensures unread { (seed names queries : ℕ)
        → AreWordsOf words.now (Selfrun seed names queries) → source.new ≡ source.old }
    ensures summary_ends { (seed names queries : ℕ)
        → AreWordsOf words.now (Selfrun seed names queries) → IsOfSelfrun result }
    ensures summary_complete { (seed names queries : ℕ)
        → AreWordsOf words.now (Selfrun seed names queries)
        → (Rose (K.faults sink.old) (K.faults sink.new) → ⊥)
        → (result ≡ Status.Good) ⊎ (result ≡ Status.OutOfMemory) }
    ensures serve_ends { (listen upstream workers datagrams : ℕ)
        → AreWordsOf words.now (Serve listen upstream workers datagrams) → IsOfServe result }
    ensures aside { (listen upstream workers datagrams : ℕ)
        → AreWordsOf words.now (Serve listen upstream workers datagrams)
        → (source.new ≡ source.old) × (sink.new ≡ sink.old) }
    ensures tcp_ends { (listen connections : ℕ)
        → AreWordsOf words.now (Tcp listen connections) → IsOfTcp result }
    ensures tcp_unwritten { (listen connections : ℕ)
        → AreWordsOf words.now (Tcp listen connections) → sink.new ≡ sink.old }
    ensures tcp_read { (listen connections : ℕ)
        → AreWordsOf words.now (Tcp listen connections)
        → HasGiven (S.left source.old) (S.left source.new) }
    ensures tcp_refused { (listen connections : ℕ)
        → AreWordsOf words.now (Tcp listen connections)
        → IsRefused result → IsReadOn (S.left source.old) (S.left source.new) }
    ensures tcp_bad_frame { (listen connections : ℕ)
        → AreWordsOf words.now (Tcp listen connections)
        → result ≡ Status.BadFrame → IfSome (S.left source.old) (IsNoFrames 1) }
    ensures audited { AreWordsOf words.now Audit → result ≡ Status.Good
        → HasAudited (S.left source.old) (S.left source.new)
        (K.written sink.old) (K.written sink.new) }
    ensures audited_in_part { AreWordsOf words.now Audit → result ≡ Status.WriteFault
        → HasAuditedInPart (S.left source.old) (S.left source.new)
        (K.written sink.old) (K.written sink.new) }
    ensures upheld { AreWordsOf words.now Audit → result ≡ Status.Good
        → (before : List ℕ) (replies : ℕ) → K.written sink.old ≡ Some before
        → K.written sink.new ≡ Some (before ++ finding_line (Yes replies))
        → IfSome (S.left source.old) AreUpheld }
    ensures audit_ends { AreWordsOf words.now Audit → IsOfAudit result }
    ensures audit_read { AreWordsOf words.now Audit
        → HasGiven (S.left source.old) (S.left source.new) }
    ensures audit_refused { AreWordsOf words.now Audit → IsRefused result
        → IsReadTo MAX_SOURCE (S.left source.old) (S.left source.new) }
    ensures audit_too_long { AreWordsOf words.now Audit → result ≡ Status.InputTooLong
        → IfSome (S.left source.old) IsTooLong }
    ensures unaudited { AreWordsOf words.now Audit → result ≡ Status.BadFrame
        → IfSome (S.left source.old) IsUnaudited }
    ensures audit_complete { AreWordsOf words.now Audit
        → (octets : List ℕ) → S.left source.old ≡ Some octets
        → (Rose (S.faults source.old) (S.faults source.new) → ⊥)
        → (Rose (K.faults sink.old) (K.faults sink.new) → ⊥)
        → IsAuditStatusOf octets result ⊎ (result ≡ Status.OutOfMemory) }
    ensures forward_ends { (settings : ForwardSettings)
        → AreWordsOf words.now (Forward settings) → IsOfForward result }
    ensures forward_aside { (settings : ForwardSettings)
        → AreWordsOf words.now (Forward settings)
        → (source.new ≡ source.old) × (sink.new ≡ sink.old) }
    ensures told { (text : List ℕ) → AsksText words.now text
        → result ≡ Status.Good
        → IsTextWritten text (K.written sink.old) (K.written sink.new) }
    ensures told_in_part { (text : List ℕ) → AsksText words.now text
        → result ≡ Status.WriteFault
        → IsTextCut text (K.written sink.old) (K.written sink.new) }
    ensures text_ends { (text : List ℕ) → AsksText words.now text → IsOfText result }
    ensures text_complete { (text : List ℕ) → AsksText words.now text
        → (Rose (K.faults sink.old) (K.faults sink.new) → ⊥)
        → (result ≡ Status.Good) ⊎ (result ≡ Status.OutOfMemory) }
    ensures text_unread { (text : List ℕ) → AsksText words.now text
        → source.new ≡ source.old }
{
    let mut harbor = UdpHarbor::over(net);
    let mut gateway = TcpGateway::over(net);
    let board = Board::new();
    let mut outlets = SocketOutlets::over(net, &clock, machine, &board);
    let clock = SystemClock::over(&clock);
    run(
        rt,
        alloc,
        words,
        source,
        sink,
        &OpenGate,
        &mut harbor,
        &clock,
        &mut gateway,
        &mut outlets,
    )
}
