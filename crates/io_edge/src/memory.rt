//! A source and a sink in memory.
ghost use Rattle.std.specs.Prelude.{◌≡◌, ◌≤◌, ◌<◌, [], ◌++◌, ◌↔◌, ◌&&◌, ◌||◌, ◌-◌, ◌==◌, not, false, true, Some, IfOk, IsErr, IsTrue, length, min, take, drop, is_err};
ghost use Rattle.std.specs.Io.{ReadsAtMost, WritesAtMost};
ghost use Rattle.std.specs.Io.KnownBytes.{ReadConsumes, WriteAppends};
ghost use Rattle.io_edge.specs.Edge.{ended_after, faults_after};
ghost use Rattle.io_edge.specs.Memory.{Input, Output, counted, next_fails};

use crate::{Failed, Sink, Source};
use aug_monoid::NoMemory;
use std::alloc::Global;
use std::marker::Model;

/// Bytes in memory, given in pieces, with calls that fail.
#[derive(Drop)]
pub struct MemSource {
    bytes: Vec<u8>,
    at: usize,
    piece: usize,
    fails: Vec<u64>,
    calls: u64,
    faults: u64,
    ended: bool,
}

impl Model for MemSource {
    ghost use Rattle.std.specs.Prelude.{◌≤◌, drop, length};
    ghost use Rattle.io_edge.specs.Memory.{Input};

    ghost Value = { Input };

    ghost view = { λ s. record { left = drop s.at s.bytes.items; piece = s.piece; fails = s.fails.items; calls = s.calls; faults = s.faults; ended = s.ended } };

    ghost invariant = { λ s. (s.at ≤ length s.bytes.items) × (1 ≤ s.piece) };
}

impl MemSource {
    /// These bytes, at most so many at a time; the calls with these numbers fail.
    pub fn new(bytes: Vec<u8>, piece: usize, fails: Vec<u64>) -> MemSource
        requires { 1 ≤ piece }
        ensures { result ≡ record { left = bytes.items; piece = piece; fails = fails.items; calls = 0; faults = 0; ended = false } }
    {
        MemSource {
            bytes,
            at: 0,
            piece,
            fails,
            calls: 0,
            faults: 0,
            ended: false,
        }
    }
}

impl Source for MemSource {
    ghost left = { λ s. Some s.left };

    ghost ended = { λ s. s.ended };

    ghost faults = { λ s. s.faults };

    fn read(&mut self, buf: &mut [u8]) -> Result<usize, Failed>
        ensures bound { ReadsAtMost result buf.new }
        ensures bytes { ReadConsumes (Some self.old.left) (Some self.new.left) result buf.new }
        ensures end { self.new.ended ≡ ended_after self.old.ended (length buf.old) result }
        ensures cause { self.new.faults ≡ faults_after (is_err result) self.old.faults }
        ensures fails { is_err result ≡ next_fails self.old.fails self.old.calls }
        ensures count { IfOk result (λ n. n ≡ min (min (length self.old.left) (length buf.old)) self.old.piece) }
        ensures after { self.new ≡ record self.old { left = self.new.left; calls = counted self.old.calls; faults = self.new.faults; ended = self.new.ended } }
    {
        self.calls = self.calls.saturating_add(1);
        if self.fails.contains(&self.calls) {
            self.faults = self.faults.saturating_add(1);
            self.ended = self.ended && buf.is_empty();
            return Err(Failed);
        }
        let (_, left) = self.bytes.split_at(self.at);
        let count = left.len().min(buf.len()).min(self.piece);
        buf[..count].copy_from_slice(&left[..count]);
        self.at += count;
        self.ended = if buf.is_empty() {
            self.ended
        } else {
            count == 0
        };
        Ok(count)
    }
}

/// Memory that takes bytes in pieces, up to its room, with calls that fail.
#[derive(Drop)]
pub struct MemSink {
    bytes: Vec<u8>,
    room: usize,
    piece: usize,
    fails: Vec<u64>,
    calls: u64,
    faults: u64,
}

impl Model for MemSink {
    ghost use Rattle.std.specs.Prelude.{◌≤◌, ◌-◌, length};
    ghost use Rattle.std.specs.Vec.{vec_capacity, vec_len};
    ghost use Rattle.io_edge.specs.Memory.{Output};

    ghost Value = { Output };

    ghost view = { λ s. record { written = s.bytes.items; room = s.room; piece = s.piece; fails = s.fails.items; calls = s.calls; faults = s.faults } };

    ghost invariant = { λ s. (1 ≤ s.piece) × (vec_len s.bytes ≤ s.room) × (s.room ≤ vec_capacity s.bytes) };
}

impl MemSink {
    /// Room for so many bytes, at most so many at a time; the calls with these numbers fail.
    pub fn new(
        alloc: Global,
        room: usize,
        piece: usize,
        fails: Vec<u64>,
    ) -> Result<MemSink, NoMemory>
        requires { 1 ≤ piece }
        ensures { IfOk result (λ s. s ≡ record { written = []; room = room; piece = piece; fails = fails.items; calls = 0; faults = 0 }) }
    {
        match Vec::with_capacity(alloc, room) {
            Ok(bytes) => Ok(MemSink {
                bytes,
                room,
                piece,
                fails,
                calls: 0,
                faults: 0,
            }),
            Err(_) => Err(NoMemory),
        }
    }

    /// The bytes that were written.
    pub fn written(&self) -> &[u8]
        ensures { result.now ≡ self.now.written }
    {
        self.bytes.as_slice()
    }
}

impl Sink for MemSink {
    ghost written = { λ s. Some s.written };

    ghost faults = { λ s. s.faults };

    fn write(&mut self, piece: &[u8]) -> Result<usize, Failed>
        ensures bound { WritesAtMost result piece.now }
        ensures bytes { WriteAppends (Some self.old.written) (Some self.new.written) result piece.now }
        ensures takes { IfOk result (λ n. 0 < length piece.now → 1 ≤ n) }
        ensures cause { self.new.faults ≡ faults_after (is_err result) self.old.faults }
        ensures after { self.new ≡ record self.old { written = self.new.written; calls = counted self.old.calls; faults = self.new.faults } }
        ensures count { IfOk result (λ n. n ≡ min (min (length piece.now) (self.old.room - length self.old.written)) self.old.piece) }
        ensures fails { is_err result ≡ (next_fails self.old.fails self.old.calls || ((self.old.room - length self.old.written == 0) && not (length piece.now == 0))) }
    {
        self.calls = self.calls.saturating_add(1);
        let count = piece
            .len()
            .min(self.room - self.bytes.len())
            .min(self.piece);
        if self.fails.contains(&self.calls) || (count == 0 && !piece.is_empty()) {
            self.faults = self.faults.saturating_add(1);
            return Err(Failed);
        }
        match self.bytes.extend_from_slice(&piece[..count]) {
            Ok(()) => Ok(count),
            Err(_) => {
                self.faults = self.faults.saturating_add(1);
                Err(Failed)
            }
        }
    }
}
