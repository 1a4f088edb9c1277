ghost use Rattle.std.specs.Prelude.{◌≡◌};
ghost use Rattle.forward_report.specs.Status.{case_of, family_of, help_of, name_of};

use counters::Counter;

/// The counters that are shown together, under one name.
#[derive(Clone, Copy, Debug, PartialEq, Eq)]
pub enum Family {
    Answered,
    Told,
    Dropped,
    Forwarded,
    Joined,
    AskedAgain,
    AskedByStream,
    Failed,
    Relayed,
    IgnoredAnswers,
    UnreadAnswers,
    Stored,
    NotStored,
}

impl Family {
    /// All, in the order in which they are shown.
    pub const ALL: [Family; 13] = [
        Family::Answered,
        Family::Told,
        Family::Dropped,
        Family::Forwarded,
        Family::Joined,
        Family::AskedAgain,
        Family::AskedByStream,
        Family::Failed,
        Family::Relayed,
        Family::IgnoredAnswers,
        Family::UnreadAnswers,
        Family::Stored,
        Family::NotStored,
    ];

    /// The one under which the counter is shown.
    pub fn of(counter: Counter) -> Family
        ensures { result ≡ family_of counter }
    {
        match counter {
            Counter::Dropped => Family::Dropped,
            Counter::FormatError => Family::Told,
            Counter::NotImplemented => Family::Told,
            Counter::BadVersion => Family::Told,
            Counter::Set => Family::Answered,
            Counter::NoData => Family::Answered,
            Counter::NameError => Family::Answered,
            Counter::Wildcard => Family::Answered,
            Counter::Alias => Family::Answered,
            Counter::Redirection => Family::Answered,
            Counter::Joined => Family::Joined,
            Counter::Asked => Family::Forwarded,
            Counter::AskedAgain => Family::AskedAgain,
            Counter::AskedByStream => Family::AskedByStream,
            Counter::Late => Family::Failed,
            Counter::Full => Family::Failed,
            Counter::Unreadable => Family::Failed,
            Counter::RelayedNoError => Family::Relayed,
            Counter::RelayedServerFailure => Family::Relayed,
            Counter::RelayedNameError => Family::Relayed,
            Counter::RelayedRefused => Family::Relayed,
            Counter::RelayedOther => Family::Relayed,
            Counter::Ignored => Family::IgnoredAnswers,
            Counter::Unread => Family::UnreadAnswers,
            Counter::Stored => Family::Stored,
            Counter::Passed => Family::NotStored,
            Counter::Unstored => Family::NotStored,
            Counter::Malformed => Family::NotStored,
            Counter::NotResponse => Family::NotStored,
            Counter::Truncated => Family::NotStored,
            Counter::OtherRcode => Family::NotStored,
            Counter::NotAuthentic => Family::NotStored,
            Counter::NothingToStore => Family::NotStored,
        }
    }

    pub fn name(self) -> &'static str
        ensures { result.now ≡ name_of self }
    {
        match self {
            Family::Answered => "dnsreplay_answered_total",
            Family::Told => "dnsreplay_told_total",
            Family::Dropped => "dnsreplay_dropped_total",
            Family::Forwarded => "dnsreplay_forwarded_total",
            Family::Joined => "dnsreplay_joined_total",
            Family::AskedAgain => "dnsreplay_asked_again_total",
            Family::AskedByStream => "dnsreplay_asked_by_stream_total",
            Family::Failed => "dnsreplay_failed_total",
            Family::Relayed => "dnsreplay_relayed_total",
            Family::IgnoredAnswers => "dnsreplay_ignored_answers_total",
            Family::UnreadAnswers => "dnsreplay_unread_answers_total",
            Family::Stored => "dnsreplay_stored_total",
            Family::NotStored => "dnsreplay_not_stored_total",
        }
    }

    pub fn help(self) -> &'static str
        ensures { result.now ≡ help_of self }
    {
        match self {
            Family::Answered => "Queries answered by the cache.",
            Family::Told => "Queries answered by an error.",
            Family::Dropped => "Messages of clients that got no reply.",
            Family::Forwarded => "Queries whose question was asked of the upstream.",
            Family::Joined => "Queries that waited for the answer to an equal one.",
            Family::AskedAgain => "Waiting questions that were asked again.",
            Family::AskedByStream => "Waiting questions that were asked again by a stream.",
            Family::Failed => "Clients that got SERVFAIL of the forwarder.",
            Family::Relayed => "Clients that got the answer of the upstream.",
            Family::IgnoredAnswers => "Messages of the upstream that no question waited for.",
            Family::UnreadAnswers => "Messages of the upstream passed over for want of memory.",
            Family::Stored => "Answers of which records were stored.",
            Family::NotStored => "Answers of which nothing was stored.",
        }
    }
}

/// What tells a counter from the others of its family: a label and a comma, or nothing where it has no others.
pub fn case_of(counter: Counter) -> &'static str
    ensures { result.now ≡ case_of counter }
{
    match counter {
        Counter::Dropped => "",
        Counter::FormatError => "error=\"format_error\",",
        Counter::NotImplemented => "error=\"not_implemented\",",
        Counter::BadVersion => "error=\"bad_version\",",
        Counter::Set => "by=\"set\",",
        Counter::NoData => "by=\"no_data\",",
        Counter::NameError => "by=\"name_error\",",
        Counter::Wildcard => "by=\"wildcard\",",
        Counter::Alias => "by=\"alias\",",
        Counter::Redirection => "by=\"redirection\",",
        Counter::Joined => "",
        Counter::Asked => "",
        Counter::AskedAgain => "",
        Counter::AskedByStream => "",
        Counter::Late => "why=\"late\",",
        Counter::Full => "why=\"full\",",
        Counter::Unreadable => "why=\"unreadable\",",
        Counter::RelayedNoError => "rcode=\"NOERROR\",",
        Counter::RelayedServerFailure => "rcode=\"SERVFAIL\",",
        Counter::RelayedNameError => "rcode=\"NXDOMAIN\",",
        Counter::RelayedRefused => "rcode=\"REFUSED\",",
        Counter::RelayedOther => "rcode=\"other\",",
        Counter::Ignored => "",
        Counter::Unread => "",
        Counter::Stored => "",
        Counter::Passed => "why=\"passed\",",
        Counter::Unstored => "why=\"memory\",",
        Counter::Malformed => "why=\"malformed\",",
        Counter::NotResponse => "why=\"not_response\",",
        Counter::Truncated => "why=\"truncated\",",
        Counter::OtherRcode => "why=\"rcode\",",
        Counter::NotAuthentic => "why=\"not_authentic\",",
        Counter::NothingToStore => "why=\"nothing\",",
    }
}
