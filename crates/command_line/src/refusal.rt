use crate::fault::Fault;

/// Why words behind `forward` weren't read.
#[derive(Clone, Copy)]
pub(crate) enum Refusal<'a> {
    Faulty(Fault<'a>),
    OutOfMemory,
}
