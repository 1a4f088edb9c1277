ghost use Rattle.std.specs.Prelude.{◌≡◌, ◌++◌, IfOk, OnOk, codes, string_bytes};
ghost use Rattle.forward_report.specs.Status.{cache_text, call_case, count_text, counts_text, failure_text, failures_text, family_text, faults_text, head, held_text, line, single, status_text_of, word_of};

use crate::family::{Family, case_of};
use crate::{CacheReport, Call, CallFaults, WorkerReport};
use counters::{Counter, Counts};
use std::alloc::{AllocError, Global};

/// Whether a number only grows.
#[derive(Clone, Copy, Debug, PartialEq, Eq)]
pub enum Kind {
    Counts,
    Gauge,
}

impl Kind {
    fn word(self) -> &'static str
        ensures { result.now ≡ word_of self }
    {
        match self {
            Kind::Counts => "counter",
            Kind::Gauge => "gauge",
        }
    }
}

/// The status in the text form of Prometheus, version 0.0.4. A worker is named by its place. No label and no help has a
/// character that would have to be escaped.
pub fn status_text(
    alloc: Global,
    workers: &[WorkerReport],
    cache: CacheReport,
) -> Result<String, AllocError>
    ensures { IfOk result (λ text. string_bytes text ≡ status_text_of workers.now cache) }
{
    let mut text = String::new(alloc);
    for family in Family::ALL {
        put_family(&mut text, family, workers)?;
    }
    put_faults(&mut text, workers)?;
    put_cache(&mut text, cache)?;
    Ok(text)
}

fn put_family(text: &mut String, family: Family, workers: &[WorkerReport]) -> Result<(), AllocError>
    ensures { OnOk result
        (string_bytes text.new ≡ string_bytes text.old ++ family_text workers.now family) }
{
    put_head(text, family.name(), family.help(), Kind::Counts)?;
    for (worker, report) in workers.iter().enumerate() {
        put_counts(text, family, worker, &report.counts)?;
    }
    Ok(())
}

fn put_counts(
    text: &mut String,
    family: Family,
    worker: usize,
    counts: &Counts,
) -> Result<(), AllocError>
    ensures { OnOk result
        (string_bytes text.new ≡ string_bytes text.old ++ counts_text family worker counts.now) }
{
    for counter in Counter::ALL {
        put_count(text, family, worker, counts, counter)?;
    }
    Ok(())
}

fn put_count(
    text: &mut String,
    family: Family,
    worker: usize,
    counts: &Counts,
    counter: Counter,
) -> Result<(), AllocError>
    ensures { OnOk result (string_bytes text.new
        ≡ string_bytes text.old ++ count_text family worker counts.now counter) }
{
    if Family::of(counter) != family {
        return Ok(());
    }
    put_line(
        text,
        family.name(),
        case_of(counter),
        worker,
        counts.of(counter),
    )
}

fn put_faults(text: &mut String, workers: &[WorkerReport]) -> Result<(), AllocError>
    ensures { OnOk result
        (string_bytes text.new ≡ string_bytes text.old ++ faults_text workers.now) }
{
    put_head(
        text,
        "dnsreplay_faults_total",
        "Calls of the system that failed.",
        Kind::Counts,
    )?;
    for (worker, report) in workers.iter().enumerate() {
        put_failures(text, worker, &report.faults)?;
    }
    Ok(())
}

fn put_failures(text: &mut String, worker: usize, faults: &CallFaults) -> Result<(), AllocError>
    ensures { OnOk result
        (string_bytes text.new ≡ string_bytes text.old ++ failures_text worker faults.now) }
{
    for call in Call::ALL {
        put_failure(text, worker, faults, call)?;
    }
    Ok(())
}

fn put_failure(
    text: &mut String,
    worker: usize,
    faults: &CallFaults,
    call: Call,
) -> Result<(), AllocError>
    ensures { OnOk result
        (string_bytes text.new ≡ string_bytes text.old ++ failure_text worker faults.now call) }
{
    put_line(
        text,
        "dnsreplay_faults_total",
        call_case(call),
        worker,
        faults.of(call),
    )?;
    Ok(())
}

fn call_case(call: Call) -> &'static str
    ensures { result.now ≡ call_case call }
{
    match call {
        Call::Wait => "call=\"wait\",",
        Call::ReceiveQuery => "call=\"receive_query\",",
        Call::ReceiveAnswer => "call=\"receive_answer\",",
        Call::Reply => "call=\"reply\",",
        Call::Socket => "call=\"socket\",",
        Call::Bind => "call=\"bind\",",
        Call::Connect => "call=\"connect\",",
        Call::Watch => "call=\"watch\",",
        Call::Send => "call=\"send\",",
        Call::Accept => "call=\"accept\",",
        Call::ConnectStream => "call=\"connect_stream\",",
        Call::ReadStream => "call=\"read_stream\",",
        Call::WriteStream => "call=\"write_stream\",",
    }
}

fn put_cache(text: &mut String, cache: CacheReport) -> Result<(), AllocError>
    ensures { OnOk result (string_bytes text.new ≡ string_bytes text.old ++ cache_text cache) }
{
    put_held(text, cache)?;
    put_single(
        text,
        "dnsreplay_batches_total",
        "Batches that made the cache.",
        Kind::Counts,
        cache.version,
    )?;
    Ok(())
}

fn put_held(text: &mut String, cache: CacheReport) -> Result<(), AllocError>
    ensures { OnOk result (string_bytes text.new ≡ string_bytes text.old ++ held_text cache) }
{
    put_single(
        text,
        "dnsreplay_held_records",
        "Records that the cache holds.",
        Kind::Gauge,
        cache.records,
    )?;
    put_single(
        text,
        "dnsreplay_held_zones",
        "Zones of which the cache holds a record.",
        Kind::Gauge,
        cache.zones,
    )?;
    put_single(
        text,
        "dnsreplay_held_chains",
        "NSEC and NSEC3 chains of which the cache holds a record.",
        Kind::Gauge,
        cache.chains,
    )?;
    Ok(())
}

fn put_head(text: &mut String, name: &str, help: &str, kind: Kind) -> Result<(), AllocError>
    ensures { OnOk result
        (string_bytes text.new ≡ string_bytes text.old ++ head name.now help.now kind) }
{
    writeln!(text, "# HELP {name} {help}")?;
    writeln!(text, "# TYPE {name} {}", kind.word())
}

fn put_line(
    text: &mut String,
    name: &str,
    case: &str,
    worker: usize,
    number: u64,
) -> Result<(), AllocError>
    ensures { OnOk result
        (string_bytes text.new ≡ string_bytes text.old ++ line name.now case.now worker number) }
{
    writeln!(text, "{name}{{{case}worker=\"{worker}\"}} {number}")
}

fn put_single(
    text: &mut String,
    name: &str,
    help: &str,
    kind: Kind,
    number: u64,
) -> Result<(), AllocError>
    ensures { OnOk result
        (string_bytes text.new ≡ string_bytes text.old ++ single name.now help.now kind number) }
{
    put_head(text, name, help, kind)?;
    writeln!(text, "{name} {number}")
}
