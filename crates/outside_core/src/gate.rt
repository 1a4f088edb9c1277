//! Where a worker may be held.

use std::sync::Wait;

/// On which side of a call of the cache a worker stands.
#[derive(Clone, Copy, Debug, PartialEq, Eq)]
pub enum Side {
    Before,
    After,
}

/// What workers pass before and after each call, so that a test can hold them. It changes nothing.
pub trait Gate: Sync {
    /// Holds the worker before or after its call, counted from 0, for as long as it likes.
    fn pass<R: Wait>(&self, rt: &R, worker: u8, call: u32, side: Side);
}

/// The gate that holds nobody.
#[derive(Clone, Copy, Debug)]
pub struct OpenGate;

impl Gate for OpenGate {
    fn pass<R: Wait>(&self, _rt: &R, _worker: u8, _call: u32, _side: Side) {}
}
