ghost use Rattle.std.specs.Prelude.{◌≡◌, ◌⊎◌, ℕ, ◌+◌, ◌<◌, ◌≤◌, List, [], ◌++◌, length, IfSome, None, Some};
ghost use Rattle.outside_core.specs.Fault.{Rose};
ghost use Rattle.command_line.specs.Words.{IsCommand, AreWordsOf};
ghost use Rattle.running.specs.Run.{AsksReplay, HasGiven, HasReplayed, IsReadOn, IsReadTo, IsReplayed, IsCutShort, IsTaken, IsNoFrames, IsOfReplay, IsOfSelfrun, IsRefused, IsStatusOf};
ghost use Rattle.running.specs.declared.reading.TheConstants.{MAX_INPUT, MAX_SOURCE};
ghost use Rattle.running.specs.Summary.{IsSummed, IsSummedInPart};
ghost use Rattle.command_line.specs.declared.command.Command.TheVariants.{Selfrun, Serve, Tcp, Audit, Forward};
ghost use Rattle.command_line.specs.declared.forward_settings.ForwardSettings.{ForwardSettings};
ghost use Rattle.resolver.specs.declared.answering.Answering.{Answering};
ghost use Rattle.serving.specs.Back.{CameBack, AllServedWhole};
ghost use Rattle.running.specs.Forward.{IsOfForward, IsWant};
ghost use Rattle.running.specs.Help.{AsksText, IsOfText, IsTextCut, IsTextWritten};
ghost use Rattle.running.specs.Serve.{service_of, EndedInWant, IsOfServe, ServedInPart};
ghost use Rattle.running.specs.Connections.{HasServed, HasServedInPart, IsOfTcp};
ghost use Rattle.run_audit.specs.declared.finding.Finding.TheVariants.{Yes};
ghost use Rattle.run_audit.specs.Line.{finding_line};
ghost use Rattle.running.specs.Audit.{AreUpheld, HasAudited, HasAuditedInPart, IsAuditStatusOf, IsOfAudit, IsTooLong, IsUnaudited};

use crate::audit::run_the_audit;
use crate::forward::{Outlets, run_forward};
use crate::reading::{MAX_INPUT, ReadError, read_whole};
use crate::replay::replay;
use crate::selfrun::selfrun;
use crate::status::Status;
use crate::tcp::run_tcp;
use crate::telling::tell;
use command_line::{Command, VERSION_LINE, command_of, help_text};
use gateway::Gateway;
use outside_core::{Clock, Gate, Harbor, Sink, Source, write_whole};
use resolver::Rule;
use serving::{ServeError, Service, serve};
use std::alloc::Global;
use std::sync::Wait;
use std::thread::Threads;
use worker_seats::{Answering, Frames, write_outputs};

const BY_ALIASES: Answering = Answering::ByWalk {
    rule: Rule::Aliases,
};

const BY_REDIRECTION: Answering = Answering::ByWalk {
    rule: Rule::Redirection,
};

const BY_BOTH: Answering = Answering::ByWalk { rule: Rule::Both };

/// Runs the words, those after the program's name: replays or audits over the source and the sink, serves over the harbor, or
/// the gateway, at the moments that the clock tells, and forwards over the outlets. Workers of a replay pass the gate.
pub fn run<
    R: Threads + Wait + Sync,
    S: Source,
    K: Sink,
    G: Gate,
    H: Harbor,
    C: Clock,
    W: Gateway,
    O: Outlets,
>(
    rt: &R,
    alloc: Global,
    words: &[String],
    source: &mut S,
    sink: &mut K,
    gate: &G,
    harbor: &mut H,
    clock: &C,
    gateway: &mut W,
    outlets: &mut O,
) -> Status
    requires shut { W.Gateway.listens gateway.old ≡ None }

    // Outlets that tell for which command they are have the one that the words are.
    requires asked { IfSome (O.Outlets.asked outlets.old) (AreWordsOf words.now) }

    // Want of memory, status 6, may take the place of any status, as it may of any answer: a call
    // for memory was refused, or a count of a list's entries or of a zone's sets would have passed
    // 2^64 - 1. No size of an input, a frame, a message or a record is told so.
    ensures usage { result ≡ Status.Usage → IsCommand words.now → ⊥ }
    ensures no_command { (IsCommand words.now → ⊥)
        → (result ≡ Status.Usage) ⊎ (result ≡ Status.OutOfMemory) }
    ensures untouched { result ≡ Status.Usage
        → (source.new ≡ source.old) × (sink.new ≡ sink.old) }

    // What was written is the spelling of output frames that fit the frames that the source had
    // left, for the workers that the words ask for and with queries answered as they ask for, and
    // each reply among them is sound.
    ensures good { (answering : Answering) (workers : ℕ)
        → AsksReplay words.now answering workers
        → result ≡ Status.Good
        → IfSome (S.left source.old) (λ input.
        IsReplayed answering workers input (K.written sink.old) (K.written sink.new)) }

    // So it is whatever the two tell: what was read in this call spells frames, and what was
    // written in it fits them.
    ensures replayed { (answering : Answering) (workers : ℕ)
        → AsksReplay words.now answering workers
        → result ≡ Status.Good
        → HasReplayed answering workers (S.left source.old) (S.left source.new)
        (K.written sink.old) (K.written sink.new) }
    ensures end { (answering : Answering) (workers : ℕ)
        → AsksReplay words.now answering workers
        → result ≡ Status.Good
        → IfSome (S.left source.old) (λ _. S.left source.new ≡ Some []) }
    ensures no_fault { result ≡ Status.Good
        → (S.faults source.new ≡ S.faults source.old)
        × (K.faults sink.new ≡ K.faults sink.old) }

    ensures read_fault { result ≡ Status.ReadFault
        → Rose (S.faults source.old) (S.faults source.new) }
    ensures write_fault { result ≡ Status.WriteFault
        → Rose (K.faults sink.old) (K.faults sink.new) }
    ensures cut { (answering : Answering) (workers : ℕ)
        → AsksReplay words.now answering workers
        → result ≡ Status.WriteFault → IfSome (S.left source.old) (λ input.
        IsCutShort answering workers input (K.written sink.old) (K.written sink.new)) }
    ensures unwritten { (result ≡ Status.ReadFault) ⊎ (result ≡ Status.OutOfMemory)
        ⊎ IsRefused result → sink.new ≡ sink.old }
    ensures read { (answering : Answering) (workers : ℕ)
        → AsksReplay words.now answering workers
        → IsOfReplay result ⊎ IsRefused result
        → IsReadOn (S.left source.old) (S.left source.new) }
    ensures read_part { (answering : Answering) (workers : ℕ)
        → AsksReplay words.now answering workers
        → (result ≡ Status.ReadFault) ⊎ (result ≡ Status.OutOfMemory)
        → HasGiven (S.left source.old) (S.left source.new) }

    // The input is looked at whole before anything is done: its length, then its frames.
    ensures too_long { result ≡ Status.InputTooLong
        → IfSome (S.left source.old) (λ input. MAX_INPUT < length input) }
    ensures bad_frame { (answering : Answering) (workers : ℕ)
        → AsksReplay words.now answering workers
        → result ≡ Status.BadFrame → IfSome (S.left source.old) (IsNoFrames workers) }
    ensures taken { (answering : Answering) (workers : ℕ)
        → AsksReplay words.now answering workers
        → IsOfReplay result → IfSome (S.left source.old) (IsTaken workers) }
    ensures complete { (answering : Answering) (workers : ℕ)
        → AsksReplay words.now answering workers
        → (input : List ℕ) → S.left source.old ≡ Some input
        → (Rose (S.faults source.old) (S.faults source.new) → ⊥)
        → (Rose (K.faults sink.old) (K.faults sink.new) → ⊥)
        → IsStatusOf workers input result ⊎ (result ≡ Status.OutOfMemory) }

    // What `selfrun` wrote is the summary of what became of the made frames. It doesn't read.
    ensures summed { (seed names queries : ℕ)
        → AreWordsOf words.now (Selfrun seed names queries) → result ≡ Status.Good
        → IsSummed seed names queries (K.written sink.old) (K.written sink.new) }
    ensures summed_in_part { (seed names queries : ℕ)
        → AreWordsOf words.now (Selfrun seed names queries) → result ≡ Status.WriteFault
        → IsSummedInPart seed names queries (K.written sink.old) (K.written sink.new) }
    ensures unread { (seed names queries : ℕ)
        → AreWordsOf words.now (Selfrun seed names queries) → source.new ≡ source.old }
    ensures summary_ends { (seed names queries : ℕ)
        → AreWordsOf words.now (Selfrun seed names queries) → IsOfSelfrun result }
    ensures summary_complete { (seed names queries : ℕ)
        → AreWordsOf words.now (Selfrun seed names queries)
        → (Rose (K.faults sink.old) (K.faults sink.new) → ⊥)
        → (result ≡ Status.Good) ⊎ (result ≡ Status.OutOfMemory) }

    // Links that came back from `serve` had each received what the words say, and sent what that
    // calls for before they were waited for again, over one list of batches. After a fault or want
    // of memory what went over a link is a part of that. It neither reads nor writes.
    ensures served { (listen upstream workers datagrams : ℕ)
        → AreWordsOf words.now (Serve listen upstream workers datagrams)
        → result ≡ Status.Good
        → CameBack (H.Harbor.came_back harbor.old) (H.Harbor.came_back harbor.new)
        (AllServedWhole (service_of listen upstream workers datagrams)
        (C.Clock.moment clock.now)) }
    ensures served_in_part { (listen upstream workers datagrams : ℕ)
        → AreWordsOf words.now (Serve listen upstream workers datagrams)
        → result ≡ Status.HarborFault
        → CameBack (H.Harbor.came_back harbor.old) (H.Harbor.came_back harbor.new)
        (ServedInPart (service_of listen upstream workers datagrams)
        (C.Clock.moment clock.now)) }

    // No link was bound, or all came back.
    ensures served_in_want { (listen upstream workers datagrams : ℕ)
        → AreWordsOf words.now (Serve listen upstream workers datagrams)
        → result ≡ Status.OutOfMemory
        → (harbor.new ≡ harbor.old)
        ⊎ CameBack (H.Harbor.came_back harbor.old) (H.Harbor.came_back harbor.new)
        (EndedInWant (service_of listen upstream workers datagrams)
        (C.Clock.moment clock.now)) }
    ensures serve_ends { (listen upstream workers datagrams : ℕ)
        → AreWordsOf words.now (Serve listen upstream workers datagrams) → IsOfServe result }
    ensures serve_complete { (listen upstream workers datagrams : ℕ)
        → AreWordsOf words.now (Serve listen upstream workers datagrams)
        → (Rose (H.Harbor.faults harbor.old) (H.Harbor.faults harbor.new) → ⊥)
        → (result ≡ Status.Good) ⊎ (result ≡ Status.OutOfMemory) }
    ensures aside { (listen upstream workers datagrams : ℕ)
        → AreWordsOf words.now (Serve listen upstream workers datagrams)
        → (source.new ≡ source.old) × (sink.new ≡ sink.old) }
    ensures harbor_fault { result ≡ Status.HarborFault
        → Rose (H.Harbor.faults harbor.old) (H.Harbor.faults harbor.new) }
    ensures no_harbor_fault { result ≡ Status.Good
        → H.Harbor.faults harbor.new ≡ H.Harbor.faults harbor.old }
    ensures unbound { ((listen upstream workers datagrams : ℕ)
        → AreWordsOf words.now (Serve listen upstream workers datagrams) → ⊥)
        → harbor.new ≡ harbor.old }

    // What `tcp` read spells frames for one worker. Their batches were placed before it listened,
    // and each connection that came back was answered from the version that all of them make,
    // whatever the clock. After a fault of the gateway that is said of those that came back; a
    // fault of one ends that one alone. It doesn't write.
    ensures connected { (listen connections : ℕ)
        → AreWordsOf words.now (Tcp listen connections)
        → result ≡ Status.Good
        → HasServed connections (C.Clock.moment clock.now)
        (S.left source.old) (S.left source.new)
        (W.Gateway.came_back gateway.old) (W.Gateway.came_back gateway.new) }
    ensures connected_in_part { (listen connections : ℕ)
        → AreWordsOf words.now (Tcp listen connections)
        → result ≡ Status.GatewayFault
        → HasServedInPart connections (C.Clock.moment clock.now)
        (S.left source.old) (S.left source.new)
        (W.Gateway.came_back gateway.old) (W.Gateway.came_back gateway.new)
        (W.Gateway.failures gateway.old) (W.Gateway.failures gateway.new)
        (W.Gateway.faults gateway.old) (W.Gateway.faults gateway.new) }
    ensures listens { (listen connections : ℕ)
        → AreWordsOf words.now (Tcp listen connections)
        → result ≡ Status.Good → W.Gateway.listens gateway.new ≡ Some listen }
    ensures tcp_unopened { (listen connections : ℕ)
        → AreWordsOf words.now (Tcp listen connections)
        → (result ≡ Status.ReadFault) ⊎ IsRefused result → gateway.new ≡ gateway.old }
    ensures tcp_ends { (listen connections : ℕ)
        → AreWordsOf words.now (Tcp listen connections) → IsOfTcp result }
    ensures tcp_unwritten { (listen connections : ℕ)
        → AreWordsOf words.now (Tcp listen connections) → sink.new ≡ sink.old }
    ensures tcp_read { (listen connections : ℕ)
        → AreWordsOf words.now (Tcp listen connections)
        → HasGiven (S.left source.old) (S.left source.new) }
    ensures tcp_refused { (listen connections : ℕ)
        → AreWordsOf words.now (Tcp listen connections)
        → IsRefused result → IsReadOn (S.left source.old) (S.left source.new) }
    ensures tcp_bad_frame { (listen connections : ℕ)
        → AreWordsOf words.now (Tcp listen connections)
        → result ≡ Status.BadFrame → IfSome (S.left source.old) (IsNoFrames 1) }
    ensures tcp_complete { (listen connections : ℕ)
        → AreWordsOf words.now (Tcp listen connections)
        → (input : List ℕ) → S.left source.old ≡ Some input
        → (Rose (S.faults source.old) (S.faults source.new) → ⊥)
        → (Rose (W.Gateway.faults gateway.old) (W.Gateway.faults gateway.new) → ⊥)
        → IsStatusOf 1 input result ⊎ (result ≡ Status.OutOfMemory) }
    ensures gateway_fault { result ≡ Status.GatewayFault
        → Rose (W.Gateway.faults gateway.old) (W.Gateway.faults gateway.new) }
    ensures no_gateway_fault { result ≡ Status.Good
        → W.Gateway.faults gateway.new ≡ W.Gateway.faults gateway.old }
    ensures unopened { ((listen connections : ℕ)
        → AreWordsOf words.now (Tcp listen connections) → ⊥)
        → gateway.new ≡ gateway.old }

    // What `audit` wrote is the line of what is found of the zone and the recorded run that it
    // read. Where that is yes, the zone looks up what each reply of the run says.
    ensures audited { AreWordsOf words.now Audit → result ≡ Status.Good
        → HasAudited (S.left source.old) (S.left source.new)
        (K.written sink.old) (K.written sink.new) }
    ensures audited_in_part { AreWordsOf words.now Audit → result ≡ Status.WriteFault
        → HasAuditedInPart (S.left source.old) (S.left source.new)
        (K.written sink.old) (K.written sink.new) }
    ensures upheld { AreWordsOf words.now Audit → result ≡ Status.Good
        → (before : List ℕ) (replies : ℕ) → K.written sink.old ≡ Some before
        → K.written sink.new ≡ Some (before ++ finding_line (Yes replies))
        → IfSome (S.left source.old) AreUpheld }
    ensures audit_ends { AreWordsOf words.now Audit → IsOfAudit result }
    ensures audit_read { AreWordsOf words.now Audit
        → HasGiven (S.left source.old) (S.left source.new) }
    ensures audit_refused { AreWordsOf words.now Audit → IsRefused result
        → IsReadTo MAX_SOURCE (S.left source.old) (S.left source.new) }
    ensures audit_too_long { AreWordsOf words.now Audit → result ≡ Status.InputTooLong
        → IfSome (S.left source.old) IsTooLong }
    ensures unaudited { AreWordsOf words.now Audit → result ≡ Status.BadFrame
        → IfSome (S.left source.old) IsUnaudited }
    ensures audit_complete { AreWordsOf words.now Audit
        → (octets : List ℕ) → S.left source.old ≡ Some octets
        → (Rose (S.faults source.old) (S.faults source.new) → ⊥)
        → (Rose (K.faults sink.old) (K.faults sink.new) → ⊥)
        → IsAuditStatusOf octets result ⊎ (result ≡ Status.OutOfMemory) }

    // What `forward` can't begin with is told. Where outlets couldn't be opened none was handed
    // out, so nothing was received. Once it serves it doesn't return. It neither reads nor writes.
    ensures forward_ends { (settings : ForwardSettings)
        → AreWordsOf words.now (Forward settings) → IsOfForward result }
    ensures forward_complete { (settings : ForwardSettings)
        → AreWordsOf words.now (Forward settings)
        → (Rose (O.Outlets.faults outlets.old) (O.Outlets.faults outlets.new) → ⊥)
        → IsWant result }
    ensures forward_aside { (settings : ForwardSettings)
        → AreWordsOf words.now (Forward settings)
        → (source.new ≡ source.old) × (sink.new ≡ sink.old) }
    ensures unlistened { result ≡ Status.ListenFault
        → O.Outlets.is_open outlets.new ≡ O.Outlets.is_open outlets.old }
    ensures listen_fault { result ≡ Status.ListenFault
        → Rose (O.Outlets.faults outlets.old) (O.Outlets.faults outlets.new) }
    ensures no_listen_fault { IsWant result
        → O.Outlets.faults outlets.new ≡ O.Outlets.faults outlets.old }
    ensures unforwarded { ((settings : ForwardSettings)
        → AreWordsOf words.now (Forward settings) → ⊥)
        → outlets.new ≡ outlets.old }

    // A text that `--help` or `--version` asks for is written. It doesn't read.
    ensures told { (text : List ℕ) → AsksText words.now text
        → result ≡ Status.Good
        → IsTextWritten text (K.written sink.old) (K.written sink.new) }
    ensures told_in_part { (text : List ℕ) → AsksText words.now text
        → result ≡ Status.WriteFault
        → IsTextCut text (K.written sink.old) (K.written sink.new) }
    ensures text_ends { (text : List ℕ) → AsksText words.now text → IsOfText result }
    ensures text_complete { (text : List ℕ) → AsksText words.now text
        → (Rose (K.faults sink.old) (K.faults sink.new) → ⊥)
        → (result ≡ Status.Good) ⊎ (result ≡ Status.OutOfMemory) }
    ensures text_unread { (text : List ℕ) → AsksText words.now text
        → source.new ≡ source.old }
{
    let command = match command_of(alloc, words) {
        Ok(Some(command)) => command,
        Ok(None) => return Status::Usage,
        Err(_) => return Status::OutOfMemory,
    };
    match command {
        Command::Replay { workers } => {
            run_replay(rt, alloc, Answering::ByProof, workers, source, sink, gate)
        }
        Command::Chase => {
            drop(command);
            run_replay(rt, alloc, BY_ALIASES, 1, source, sink, gate)
        }
        Command::Redirect => {
            drop(command);
            run_replay(rt, alloc, BY_REDIRECTION, 1, source, sink, gate)
        }
        Command::Follow => {
            drop(command);
            run_replay(rt, alloc, BY_BOTH, 1, source, sink, gate)
        }
        Command::Audit => {
            drop(command);
            run_the_audit(alloc, source, sink)
        }
        Command::Selfrun {
            seed,
            names,
            queries,
        } => { run_selfrun(rt, alloc, seed, names, queries, sink, gate) }
        Command::Serve {
            listen,
            upstream,
            workers,
            datagrams,
        } => run_serve(
            rt, alloc, listen, upstream, workers, datagrams, harbor, clock,
        ),
        Command::Tcp {
            listen,
            connections,
        } => { run_tcp(rt, alloc, listen, connections, source, gate, clock, gateway) }
        Command::Forward(settings) => {
            let status = run_forward(rt, alloc, &settings, outlets);
            drop(settings);
            status
        }
        Command::Help(topic) => tell(sink, help_text(topic)),
        Command::Version => {
            drop(command);
            tell(sink, VERSION_LINE)
        }
    }
}

fn run_serve<R: Threads + Wait + Sync, H: Harbor, C: Clock>(
    rt: &R,
    alloc: Global,
    listen: u16,
    upstream: u16,
    workers: u8,
    datagrams: u32,
    harbor: &mut H,
    clock: &C,
) -> Status
    requires some { 1 ≤ workers }
    requires most { workers ≤ 32 }
    requires ports { listen + workers ≤ 65_536 }
    requires few { datagrams ≤ 5_000 }
    ensures ends { IsOfServe result }
    ensures served { result ≡ Status.Good
        → CameBack (H.Harbor.came_back harbor.old) (H.Harbor.came_back harbor.new)
        (AllServedWhole (service_of listen upstream workers datagrams)
        (C.Clock.moment clock.now)) }
    ensures in_part { result ≡ Status.HarborFault
        → CameBack (H.Harbor.came_back harbor.old) (H.Harbor.came_back harbor.new)
        (ServedInPart (service_of listen upstream workers datagrams)
        (C.Clock.moment clock.now)) }
    ensures in_want { result ≡ Status.OutOfMemory
        → (harbor.new ≡ harbor.old)
        ⊎ CameBack (H.Harbor.came_back harbor.old) (H.Harbor.came_back harbor.new)
        (EndedInWant (service_of listen upstream workers datagrams)
        (C.Clock.moment clock.now)) }
    ensures fault { result ≡ Status.HarborFault
        → Rose (H.Harbor.faults harbor.old) (H.Harbor.faults harbor.new) }
    ensures no_fault { result ≡ Status.Good
        → H.Harbor.faults harbor.new ≡ H.Harbor.faults harbor.old }
{
    let service = Service {
        listen,
        upstream,
        workers,
        datagrams: datagrams as u16,
    };
    match serve(rt, alloc, &service, harbor, clock) {
        Ok(()) => Status::Good,
        Err(ServeError::Harbor) => Status::HarborFault,
        Err(ServeError::OutOfMemory) => Status::OutOfMemory,
    }
}

fn run_selfrun<R: Threads + Wait + Sync, K: Sink, G: Gate>(
    rt: &R,
    alloc: Global,
    seed: u32,
    names: u32,
    queries: u32,
    sink: &mut K,
    gate: &G,
) -> Status
    requires names { (1 ≤ names) × (names ≤ 10000) }
    requires queries { queries ≤ 100000 }
    ensures ends { IsOfSelfrun result }
    ensures summed { result ≡ Status.Good
        → IsSummed seed names queries (K.written sink.old) (K.written sink.new) }
    ensures no_fault { result ≡ Status.Good → K.faults sink.new ≡ K.faults sink.old }
    ensures in_part { result ≡ Status.WriteFault
        → IsSummedInPart seed names queries (K.written sink.old) (K.written sink.new) }
    ensures write_fault { result ≡ Status.WriteFault
        → Rose (K.faults sink.old) (K.faults sink.new) }
    ensures unwritten { result ≡ Status.OutOfMemory → sink.new ≡ sink.old }
{
    let Ok(text) = selfrun(rt, alloc, seed, names, queries, gate) else {
        return Status::OutOfMemory;
    };
    if write_whole(sink, text.as_bytes()).is_err() {
        return Status::WriteFault;
    }
    Status::Good
}

fn run_replay<R: Threads + Wait + Sync, S: Source, K: Sink, G: Gate>(
    rt: &R,
    alloc: Global,
    answering: Answering,
    workers: u8,
    source: &mut S,
    sink: &mut K,
    gate: &G,
) -> Status
    requires { (1 ≤ workers) × (workers ≤ 32) }
    ensures command { result ≡ Status.Usage → ⊥ }
    ensures unbound { result ≡ Status.HarborFault → ⊥ }
    ensures unconnected { result ≡ Status.GatewayFault → ⊥ }
    ensures unlistened { result ≡ Status.ListenFault → ⊥ }
    ensures good { result ≡ Status.Good
        → IfSome (S.left source.old) (λ input.
        IsReplayed answering workers input (K.written sink.old) (K.written sink.new)) }
    ensures replayed { result ≡ Status.Good
        → HasReplayed answering workers (S.left source.old) (S.left source.new)
        (K.written sink.old) (K.written sink.new) }
    ensures end { result ≡ Status.Good
        → IfSome (S.left source.old) (λ _. S.left source.new ≡ Some []) }
    ensures no_fault { result ≡ Status.Good
        → (S.faults source.new ≡ S.faults source.old)
        × (K.faults sink.new ≡ K.faults sink.old) }
    ensures read_fault { result ≡ Status.ReadFault
        → Rose (S.faults source.old) (S.faults source.new) }
    ensures write_fault { result ≡ Status.WriteFault
        → Rose (K.faults sink.old) (K.faults sink.new) }
    ensures cut { result ≡ Status.WriteFault
        → IfSome (S.left source.old) (λ input.
        IsCutShort answering workers input (K.written sink.old) (K.written sink.new)) }
    ensures unwritten { (result ≡ Status.ReadFault) ⊎ (result ≡ Status.OutOfMemory)
        ⊎ IsRefused result → sink.new ≡ sink.old }
    ensures read { IsOfReplay result ⊎ IsRefused result
        → IsReadOn (S.left source.old) (S.left source.new) }
    ensures read_part { (result ≡ Status.ReadFault) ⊎ (result ≡ Status.OutOfMemory)
        → HasGiven (S.left source.old) (S.left source.new) }
    ensures too_long { result ≡ Status.InputTooLong
        → IfSome (S.left source.old) (λ input. MAX_INPUT < length input) }
    ensures bad_frame { result ≡ Status.BadFrame
        → IfSome (S.left source.old) (IsNoFrames workers) }
    ensures taken { IsOfReplay result → IfSome (S.left source.old) (IsTaken workers) }
    ensures complete { (input : List ℕ) → S.left source.old ≡ Some input
        → (Rose (S.faults source.old) (S.faults source.new) → ⊥)
        → (Rose (K.faults sink.old) (K.faults sink.new) → ⊥)
        → IsStatusOf workers input result ⊎ (result ≡ Status.OutOfMemory) }
{
    let input = match read_whole(alloc, source, MAX_INPUT) {
        Ok(input) => input,
        Err(ReadError::Failed) => return Status::ReadFault,
        Err(ReadError::OutOfMemory) => return Status::OutOfMemory,
    };
    if input.len() > MAX_INPUT {
        return Status::InputTooLong;
    }
    let Some(frames) = Frames::of(&input, workers) else {
        return Status::BadFrame;
    };
    let Ok(outputs) = replay(rt, alloc, answering, workers, &frames, gate) else {
        return Status::OutOfMemory;
    };
    let written = write_outputs(rt, alloc, sink, &frames, &outputs);
    outputs.give_back(rt);
    match written {
        Ok(()) => Status::Good,
        Err(_) => Status::WriteFault,
    }
}
