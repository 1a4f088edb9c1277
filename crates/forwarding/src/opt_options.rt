//! Options in the OPT record that ends a reply, and those of a message's.
ghost use Rattle.std.specs.Prelude.{◌≡◌, ◌≤◌, ◌+◌, length, IfSome};
ghost use Rattle.reply_core.specs.declared.draft.TheConstants.{MAX_LONG_REPLY, MAX_REPLY};
ghost use Rattle.forwarding.specs.Options.{can_take, has_no_data, option_size, opt_data, room_in, told, with_options};

use dname::types::OPT_TYPE;
use dname::u16_at;
use dnswire::{Edns, RrList};
use reply_core::{MAX_REPLY, Reply};

// The octets of a code and a length.
const OPTION_HEAD: usize = 4;

/// Puts the octets into the OPT record that ends the reply and has no data, where there are some, the client sent such a record,
/// and the reply stays within the limit. Else the buffer stays as it is.
pub(crate) fn put_options<const N: usize>(
    limit: usize,
    edns: Option<Edns>,
    options: &[u8],
    out: &mut Reply<N>,
)
    requires size { N ≤ MAX_LONG_REPLY }
    requires room { limit ≤ N }
    ensures value { out.new ≡ told limit edns options.now out.old }
    ensures within_limit { length out.old ≤ limit → length out.new ≤ limit }
{
    if can_take(limit, edns, options, out.as_slice()) {
        set_options(options, out);
    }
}

fn can_take(limit: usize, edns: Option<Edns>, options: &[u8], reply: &[u8]) -> bool
    ensures { result ≡ can_take limit edns options.now reply.now }
{
    edns.is_some()
        && !options.is_empty()
        && has_no_data(reply)
        && options.len() <= limit.saturating_sub(reply.len())
}

fn has_no_data(reply: &[u8]) -> bool
    ensures { result ≡ has_no_data reply.now }
{
    reply.len() >= 2 && u16_at(reply, reply.len() - 2) == 0
}

fn set_options<const N: usize>(options: &[u8], out: &mut Reply<N>)
    requires size { N ≤ MAX_LONG_REPLY }
    requires length { 2 ≤ length out.old }
    requires room { length out.old + length options.now ≤ N }
    ensures { out.new ≡ with_options options.now out.old }
{
    let end = out.as_slice().len();
    out.replace_from(end - 2, &(options.len() as u16).to_be_bytes());
    out.replace_from(end, options);
}

/// The octets of options that the reply may have.
pub(crate) fn room_in(limit: usize, reply: &[u8]) -> usize
    ensures value { result ≡ room_in limit reply.now }
    ensures small { result ≤ MAX_REPLY }
{
    limit.saturating_sub(reply.len()).min(MAX_REPLY)
}

/// The number of octets of the whole option at the front, where one stands there.
pub(crate) fn option_size(octets: &[u8]) -> Option<usize>
    ensures value { result ≡ option_size octets.now }
    ensures within { IfSome result (λ size. size ≤ length octets.now) }
{
    if octets.len() < OPTION_HEAD {
        return None;
    }
    let size = OPTION_HEAD + usize::from(u16_at(octets, 2));
    if size <= octets.len() {
        Some(size)
    } else {
        None
    }
}

/// The data of the first OPT record of the root.
pub(crate) fn opt_data(additional: &RrList) -> &[u8]
    ensures { result.now ≡ opt_data additional.now }
{
    for rr in additional.as_slice() {
        if rr.rtype == OPT_TYPE && rr.owner.name().labels() == 0 {
            return rr.octets.as_slice();
        }
    }
    &[]
}
