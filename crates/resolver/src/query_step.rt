//! What is to be done of a query.
ghost use Rattle.resolver.specs.QueryStep.{IsStep, WasRead};

use dnswire::{QueryRead, Question};
use reply_core::rcode::{BAD_VERSION, FORMAT_ERROR, NOT_IMPLEMENTED};
use reply_core::{ReplyBuffer, write_error, write_plain};

/// What is to be done of a query.
#[derive(Drop)]
pub enum QueryStep<'a> {
    /// Nothing: it gets no reply.
    Dropped,
    /// The reply that tells its fault is sent.
    Error,
    /// The cache is asked.
    Query(&'a Question),
}

/// What is to be done of a query that was read. Of a fault the buffer then holds the reply that tells it. It takes no memory.
pub fn query_step_of<'a>(read: &'a QueryRead, out: &mut ReplyBuffer) -> QueryStep<'a>
    requires { WasRead read.now }
    ensures { IsStep read.now result out.new }
{
    match read {
        QueryRead::Dropped => QueryStep::Dropped,
        QueryRead::NotImp(head) => {
            write_error(head, NOT_IMPLEMENTED, out);
            QueryStep::Error
        }
        QueryRead::FormErr(head) => {
            write_error(head, FORMAT_ERROR, out);
            QueryStep::Error
        }
        QueryRead::BadVers(question) => {
            write_plain(question, BAD_VERSION, out);
            QueryStep::Error
        }
        QueryRead::Query(question) => QueryStep::Query(question),
    }
}
