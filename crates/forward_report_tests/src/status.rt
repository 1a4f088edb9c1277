//! The whole status of two workers.
use counters::{Counter, Counts};
use forward_report::{CacheReport, Call, CallFaults, WorkerReport, status_text};
use std::alloc::AllocError;
use std::test::Fail;

// Of the first worker each counter is at its place from 1 on, and each call has failed that often from 41 on; of the second one a
// hundred more.
const STATUS: &str = "\
# HELP dnsreplay_answered_total Queries answered by the cache.\n\
# TYPE dnsreplay_answered_total counter\n\
dnsreplay_answered_total{by=\"set\",worker=\"0\"} 5\n\
dnsreplay_answered_total{by=\"no_data\",worker=\"0\"} 6\n\
dnsreplay_answered_total{by=\"name_error\",worker=\"0\"} 7\n\
dnsreplay_answered_total{by=\"wildcard\",worker=\"0\"} 8\n\
dnsreplay_answered_total{by=\"alias\",worker=\"0\"} 9\n\
dnsreplay_answered_total{by=\"redirection\",worker=\"0\"} 10\n\
dnsreplay_answered_total{by=\"set\",worker=\"1\"} 105\n\
dnsreplay_answered_total{by=\"no_data\",worker=\"1\"} 106\n\
dnsreplay_answered_total{by=\"name_error\",worker=\"1\"} 107\n\
dnsreplay_answered_total{by=\"wildcard\",worker=\"1\"} 108\n\
dnsreplay_answered_total{by=\"alias\",worker=\"1\"} 109\n\
dnsreplay_answered_total{by=\"redirection\",worker=\"1\"} 110\n\
# HELP dnsreplay_told_total Queries answered by an error.\n\
# TYPE dnsreplay_told_total counter\n\
dnsreplay_told_total{error=\"format_error\",worker=\"0\"} 2\n\
dnsreplay_told_total{error=\"not_implemented\",worker=\"0\"} 3\n\
dnsreplay_told_total{error=\"bad_version\",worker=\"0\"} 4\n\
dnsreplay_told_total{error=\"format_error\",worker=\"1\"} 102\n\
dnsreplay_told_total{error=\"not_implemented\",worker=\"1\"} 103\n\
dnsreplay_told_total{error=\"bad_version\",worker=\"1\"} 104\n\
# HELP dnsreplay_dropped_total Messages of clients that got no reply.\n\
# TYPE dnsreplay_dropped_total counter\n\
dnsreplay_dropped_total{worker=\"0\"} 1\n\
dnsreplay_dropped_total{worker=\"1\"} 101\n\
# HELP dnsreplay_forwarded_total Queries whose question was asked of the upstream.\n\
# TYPE dnsreplay_forwarded_total counter\n\
dnsreplay_forwarded_total{worker=\"0\"} 12\n\
dnsreplay_forwarded_total{worker=\"1\"} 112\n\
# HELP dnsreplay_joined_total Queries that waited for the answer to an equal one.\n\
# TYPE dnsreplay_joined_total counter\n\
dnsreplay_joined_total{worker=\"0\"} 11\n\
dnsreplay_joined_total{worker=\"1\"} 111\n\
# HELP dnsreplay_asked_again_total Waiting questions that were asked again.\n\
# TYPE dnsreplay_asked_again_total counter\n\
dnsreplay_asked_again_total{worker=\"0\"} 13\n\
dnsreplay_asked_again_total{worker=\"1\"} 113\n\
# HELP dnsreplay_asked_by_stream_total Waiting questions that were asked again by a stream.\n\
# TYPE dnsreplay_asked_by_stream_total counter\n\
dnsreplay_asked_by_stream_total{worker=\"0\"} 14\n\
dnsreplay_asked_by_stream_total{worker=\"1\"} 114\n\
# HELP dnsreplay_failed_total Clients that got SERVFAIL of the forwarder.\n\
# TYPE dnsreplay_failed_total counter\n\
dnsreplay_failed_total{why=\"late\",worker=\"0\"} 15\n\
dnsreplay_failed_total{why=\"full\",worker=\"0\"} 16\n\
dnsreplay_failed_total{why=\"unreadable\",worker=\"0\"} 17\n\
dnsreplay_failed_total{why=\"late\",worker=\"1\"} 115\n\
dnsreplay_failed_total{why=\"full\",worker=\"1\"} 116\n\
dnsreplay_failed_total{why=\"unreadable\",worker=\"1\"} 117\n\
# HELP dnsreplay_relayed_total Clients that got the answer of the upstream.\n\
# TYPE dnsreplay_relayed_total counter\n\
dnsreplay_relayed_total{rcode=\"NOERROR\",worker=\"0\"} 18\n\
dnsreplay_relayed_total{rcode=\"SERVFAIL\",worker=\"0\"} 19\n\
dnsreplay_relayed_total{rcode=\"NXDOMAIN\",worker=\"0\"} 20\n\
dnsreplay_relayed_total{rcode=\"REFUSED\",worker=\"0\"} 21\n\
dnsreplay_relayed_total{rcode=\"other\",worker=\"0\"} 22\n\
dnsreplay_relayed_total{rcode=\"NOERROR\",worker=\"1\"} 118\n\
dnsreplay_relayed_total{rcode=\"SERVFAIL\",worker=\"1\"} 119\n\
dnsreplay_relayed_total{rcode=\"NXDOMAIN\",worker=\"1\"} 120\n\
dnsreplay_relayed_total{rcode=\"REFUSED\",worker=\"1\"} 121\n\
dnsreplay_relayed_total{rcode=\"other\",worker=\"1\"} 122\n\
# HELP dnsreplay_ignored_answers_total Messages of the upstream that no question waited for.\n\
# TYPE dnsreplay_ignored_answers_total counter\n\
dnsreplay_ignored_answers_total{worker=\"0\"} 23\n\
dnsreplay_ignored_answers_total{worker=\"1\"} 123\n\
# HELP dnsreplay_unread_answers_total Messages of the upstream passed over for want of memory.\n\
# TYPE dnsreplay_unread_answers_total counter\n\
dnsreplay_unread_answers_total{worker=\"0\"} 24\n\
dnsreplay_unread_answers_total{worker=\"1\"} 124\n\
# HELP dnsreplay_stored_total Answers of which records were stored.\n\
# TYPE dnsreplay_stored_total counter\n\
dnsreplay_stored_total{worker=\"0\"} 25\n\
dnsreplay_stored_total{worker=\"1\"} 125\n\
# HELP dnsreplay_not_stored_total Answers of which nothing was stored.\n\
# TYPE dnsreplay_not_stored_total counter\n\
dnsreplay_not_stored_total{why=\"passed\",worker=\"0\"} 26\n\
dnsreplay_not_stored_total{why=\"memory\",worker=\"0\"} 27\n\
dnsreplay_not_stored_total{why=\"malformed\",worker=\"0\"} 28\n\
dnsreplay_not_stored_total{why=\"not_response\",worker=\"0\"} 29\n\
dnsreplay_not_stored_total{why=\"truncated\",worker=\"0\"} 30\n\
dnsreplay_not_stored_total{why=\"rcode\",worker=\"0\"} 31\n\
dnsreplay_not_stored_total{why=\"not_authentic\",worker=\"0\"} 32\n\
dnsreplay_not_stored_total{why=\"nothing\",worker=\"0\"} 33\n\
dnsreplay_not_stored_total{why=\"passed\",worker=\"1\"} 126\n\
dnsreplay_not_stored_total{why=\"memory\",worker=\"1\"} 127\n\
dnsreplay_not_stored_total{why=\"malformed\",worker=\"1\"} 128\n\
dnsreplay_not_stored_total{why=\"not_response\",worker=\"1\"} 129\n\
dnsreplay_not_stored_total{why=\"truncated\",worker=\"1\"} 130\n\
dnsreplay_not_stored_total{why=\"rcode\",worker=\"1\"} 131\n\
dnsreplay_not_stored_total{why=\"not_authentic\",worker=\"1\"} 132\n\
dnsreplay_not_stored_total{why=\"nothing\",worker=\"1\"} 133\n\
# HELP dnsreplay_faults_total Calls of the system that failed.\n\
# TYPE dnsreplay_faults_total counter\n\
dnsreplay_faults_total{call=\"wait\",worker=\"0\"} 41\n\
dnsreplay_faults_total{call=\"receive_query\",worker=\"0\"} 42\n\
dnsreplay_faults_total{call=\"receive_answer\",worker=\"0\"} 43\n\
dnsreplay_faults_total{call=\"reply\",worker=\"0\"} 44\n\
dnsreplay_faults_total{call=\"socket\",worker=\"0\"} 45\n\
dnsreplay_faults_total{call=\"bind\",worker=\"0\"} 46\n\
dnsreplay_faults_total{call=\"connect\",worker=\"0\"} 47\n\
dnsreplay_faults_total{call=\"watch\",worker=\"0\"} 48\n\
dnsreplay_faults_total{call=\"send\",worker=\"0\"} 49\n\
dnsreplay_faults_total{call=\"accept\",worker=\"0\"} 50\n\
dnsreplay_faults_total{call=\"connect_stream\",worker=\"0\"} 51\n\
dnsreplay_faults_total{call=\"read_stream\",worker=\"0\"} 52\n\
dnsreplay_faults_total{call=\"write_stream\",worker=\"0\"} 53\n\
dnsreplay_faults_total{call=\"wait\",worker=\"1\"} 141\n\
dnsreplay_faults_total{call=\"receive_query\",worker=\"1\"} 142\n\
dnsreplay_faults_total{call=\"receive_answer\",worker=\"1\"} 143\n\
dnsreplay_faults_total{call=\"reply\",worker=\"1\"} 144\n\
dnsreplay_faults_total{call=\"socket\",worker=\"1\"} 145\n\
dnsreplay_faults_total{call=\"bind\",worker=\"1\"} 146\n\
dnsreplay_faults_total{call=\"connect\",worker=\"1\"} 147\n\
dnsreplay_faults_total{call=\"watch\",worker=\"1\"} 148\n\
dnsreplay_faults_total{call=\"send\",worker=\"1\"} 149\n\
dnsreplay_faults_total{call=\"accept\",worker=\"1\"} 150\n\
dnsreplay_faults_total{call=\"connect_stream\",worker=\"1\"} 151\n\
dnsreplay_faults_total{call=\"read_stream\",worker=\"1\"} 152\n\
dnsreplay_faults_total{call=\"write_stream\",worker=\"1\"} 153\n\
# HELP dnsreplay_held_records Records that the cache holds.\n\
# TYPE dnsreplay_held_records gauge\n\
dnsreplay_held_records 131072\n\
# HELP dnsreplay_held_zones Zones of which the cache holds a record.\n\
# TYPE dnsreplay_held_zones gauge\n\
dnsreplay_held_zones 4021\n\
# HELP dnsreplay_held_chains NSEC and NSEC3 chains of which the cache holds a record.\n\
# TYPE dnsreplay_held_chains gauge\n\
dnsreplay_held_chains 5310\n\
# HELP dnsreplay_batches_total Batches that made the cache.\n\
# TYPE dnsreplay_batches_total counter\n\
dnsreplay_batches_total 18446744073709551615\n";

// What has neither labels nor workers.
const END: &str = "\
# HELP dnsreplay_held_records Records that the cache holds.\n\
# TYPE dnsreplay_held_records gauge\n\
dnsreplay_held_records 131072\n\
# HELP dnsreplay_held_zones Zones of which the cache holds a record.\n\
# TYPE dnsreplay_held_zones gauge\n\
dnsreplay_held_zones 4021\n\
# HELP dnsreplay_held_chains NSEC and NSEC3 chains of which the cache holds a record.\n\
# TYPE dnsreplay_held_chains gauge\n\
dnsreplay_held_chains 5310\n\
# HELP dnsreplay_batches_total Batches that made the cache.\n\
# TYPE dnsreplay_batches_total counter\n\
dnsreplay_batches_total 18446744073709551615\n";

fn worker(first: u64) -> WorkerReport {
    let mut counts = Counts::new();
    let mut number = first;
    for counter in Counter::ALL {
        number = number.wrapping_add(1);
        counts.add(counter, number);
    }
    let mut faults = CallFaults::new();
    number = first.wrapping_add(40);
    for call in Call::ALL {
        number = number.wrapping_add(1);
        faults.set(call, number);
    }
    WorkerReport { counts, faults }
}

fn cache() -> CacheReport {
    CacheReport {
        records: 131_072,
        zones: 4_021,
        chains: 5_310,
        version: u64::MAX,
    }
}

#[test]
fn the_status_of_two_workers(rt: HostRuntime) -> Result<(), Fail> {
    let text = status_text(rt.alloc(), &[worker(0), worker(100)], cache())?;
    assert!(rt; text.as_str() == STATUS, "{text}");
    Ok(())
}

// A name without lines keeps its head.
#[test]
fn the_status_of_none(rt: HostRuntime) -> Result<(), Fail> {
    let text = status_text(rt.alloc(), &[], cache())?;
    assert!(rt;
        text.as_str().ends_with(END) && text.as_str().lines().count() == 40,
        "{text}"
    );
    Ok(())
}
