//! What crosses threads.
use std::marker::{Send, Sync};

/// A value is sent to and shared among threads. It does nothing, and is there for the proof of that alone: a crate calls it with
/// what it makes.
pub fn crosses<T: Send + Sync>(_value: &T) {}
