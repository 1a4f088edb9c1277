//! The upstream's extended errors, passed on.
ghost use Rattle.std.specs.Prelude.{◌≡◌, ◌≤◌, length};
ghost use Rattle.dnswire.specs.declared.edns.TheConstants.{LEAST_PAYLOAD};
ghost use Rattle.reply_core.specs.Relay.{relay_within};
ghost use Rattle.reply_core.specs.declared.rcode.TheConstants.{MAX_RCODE};
ghost use Rattle.reply_core.specs.declared.draft.TheConstants.{MAX_LONG_REPLY, MAX_REPLY};
ghost use Rattle.forwarding.specs.Options.{opt_data, room_in};
ghost use Rattle.forwarding.specs.ExtendedError.{errors_in, is_error_octets, told_relay, with_error};

use crate::EXTENDED_ERROR;
use crate::opt_options::{opt_data, option_size, put_options, room_in};
use arrayvec::ArrayVec;
use dname::{octets_between, octets_from, u16_at};
use dnswire::{Message, Question};
use reply_core::{MAX_REPLY, Reply, write_relay_within};

// Octets of a reply's options.
type OptionOctets = ArrayVec<u8, MAX_REPLY>;

/// Writes the reply by which an upstream server's message is relayed within the limit to the client that asked the question, in place
/// of what the buffer held, with the message's extended errors where the client has an OPT record, as far as there is room.
pub fn write_told_relay<const N: usize>(
    limit: usize,
    question: &Question,
    message: &Message,
    out: &mut Reply<N>,
)
    requires size { N ≤ MAX_LONG_REPLY }
    requires room { limit ≤ N }
    requires least { LEAST_PAYLOAD ≤ limit }
    requires rcode { message.now.rcode ≤ MAX_RCODE }
    ensures value { out.new ≡ told_relay limit question.now message.now }
    ensures within_limit { length out.new ≤ limit }
{
    write_relay_within(limit, question, message, out);
    if question.edns.is_some() {
        put_errors(limit, question, message, out);
    }
}

fn put_errors<const N: usize>(
    limit: usize,
    question: &Question,
    message: &Message,
    out: &mut Reply<N>,
)
    requires size { N ≤ MAX_LONG_REPLY }
    requires room { limit ≤ N }
    requires relay { out.old ≡ relay_within limit question.now message.now }
    requires within_limit { length out.old ≤ limit }
    ensures value { out.new ≡ told_relay limit question.now message.now }
    ensures within_limit { length out.new ≤ limit }
{
    let options = opt_data(&message.additional);
    if options.is_empty() {
        return;
    }
    let room = room_in(limit, out.as_slice());
    let errors = errors_in(room, options);
    put_options(limit, question.edns, errors.as_slice(), out);
}

// The octets of the extended errors that the room has.
fn errors_in(room: usize, octets: &[u8]) -> OptionOctets
    requires { room ≤ MAX_REPLY }
    ensures { result.items ≡ errors_in room octets.now }
{
    let mut errors: OptionOctets = ArrayVec::new();
    let mut rest = octets;
    for _passed in 0..octets.len() {
        let Some(size) = option_size(rest) else {
            return errors;
        };
        put_error(room, octets_between(rest, 0, size), &mut errors);
        rest = octets_from(rest, size);
    }
    errors
}

fn put_error(room: usize, option: &[u8], errors: &mut OptionOctets)
    requires { room ≤ MAX_REPLY }
    ensures { errors.new.items ≡ with_error room option.now errors.old.items }
{
    if is_error(option) && errors.len() + option.len() <= room {
        let fitted = errors.try_extend_from_slice(option).is_ok();
        prove!(fitted);
    }
}

fn is_error(option: &[u8]) -> bool
    ensures { result ≡ is_error_octets option.now }
{
    option.len() >= 6 && u16_at(option, 0) == EXTENDED_ERROR
}
