ghost use Rattle.std.specs.Prelude.{◌≡◌, ◌≤◌, length, is_none};
ghost use Rattle.reply_core.specs.Draft.{put, set_octet, cut, blank, octets_of};

use arrayvec::ArrayVec;
use std::marker::Model;

/// The octets of the longest reply, and the UDP payload that a reply says it takes.
pub const MAX_REPLY: usize = 1232;

/// The octets of the longest reply on a stream, whose length two octets hold (RFC 1035, section 4.2.2).
pub const MAX_LONG_REPLY: usize = 65_535;

/// Octets that are put one after the other, up to a limit. Once they would go beyond it, there are none, and nothing
/// that is put changes that.
#[derive(Debug, Drop)]
pub(crate) struct Draft<const N: usize> {
    octets: ArrayVec<u8, N>,
    limit: usize,
    over: bool,
}

impl<const N: usize> Model for Draft<N> {
    ghost use Rattle.std.specs.Prelude.{◌≤◌, length, if◌then◌else◌, Some, None};
    ghost use Rattle.reply_core.specs.Draft.{Contents};

    ghost Value = { Contents };

    ghost view = { λ d. record {
      limit = d.limit;
      written = (if d.over then None else Some d.octets.items);
    } };

    ghost invariant = { λ d. (d.limit ≤ N) × (length d.octets.items ≤ d.limit) };
}

impl<const N: usize> Draft<N> {
    /// A draft with nothing in it.
    pub(crate) fn new(limit: usize) -> Draft<N>
        requires { limit ≤ N }
        ensures { result ≡ blank limit }
    {
        Draft {
            octets: ArrayVec::new(),
            limit,
            over: false,
        }
    }

    /// Clears the draft for another limit.
    pub(crate) fn restart(&mut self, limit: usize)
        requires { limit ≤ N }
        ensures { self.new ≡ blank limit }
    {
        self.cut(0, limit);
    }

    /// Keeps the octets before place `at`, for another limit.
    pub(crate) fn cut(&mut self, at: usize, limit: usize)
        requires at { at ≤ length (octets_of self.old.written) }
        requires room { at ≤ limit }
        requires limit { limit ≤ N }
        ensures { self.new ≡ cut at limit self.old }
    {
        self.octets.truncate(at);
        self.limit = limit;
        self.over = false;
    }

    /// Puts the octets after those that there are.
    pub(crate) fn put(&mut self, octets: &[u8])
        ensures { self.new ≡ put self.old octets.now }
    {
        if self.octets.len() + octets.len() > self.limit {
            self.over = true;
            return;
        }
        let fitted = self.octets.try_extend_from_slice(octets).is_ok();
        prove!(fitted);
    }

    /// Writes an octet over the one at place `at`, where there is one.
    pub(crate) fn set(&mut self, at: usize, octet: u8)
        ensures { self.new ≡ set_octet self.old at octet }
    {
        if at < self.octets.len() {
            self.octets.as_mut_slice()[at] = octet;
        }
    }

    /// Whether more was put than the limit.
    pub(crate) fn is_over(&self) -> bool
        ensures { result ≡ is_none self.now.written }
    {
        self.over
    }

    pub(crate) fn as_slice(&self) -> &[u8]
        ensures value { result.now ≡ octets_of self.now.written }
        ensures fits { length result.now ≤ N }
    {
        if self.over {
            return &[];
        }
        self.octets.as_slice()
    }
}
