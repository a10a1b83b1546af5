//! `pam TOOL`: reads commands from standard input, and writes their replies to standard output.
//!
//! Tests: its stored run. Wrong bodies: none; it promises nothing but to be safe.
#![tactic(auto)]

use fork_join::FreeGate;
use io_edge::{StdSink, StdSource};
use pam_top::{Status, pam};
use std::env::{Env, FillError};
use std::process::ExitCode;

/// The room in which a word is looked for first, in bytes.
const FIRST_ROOM: usize = 256;

/// How often the room is doubled at most. Memory ends before.
const DOUBLINGS: usize = 64;

/// So many zeros.
fn zeros(rt: &HostRuntime, count: usize) -> Result<Vec<u8>, Status> {
    match vec![in rt.alloc(); 0u8; count] {
        Ok(room) => Ok(room),
        Err(_) => Err(Status::NoMemory),
    }
}

/// The first bytes as a word.
fn word_of(bytes: Vec<u8>, length: usize) -> Result<String, Status> {
    let mut bytes = bytes;
    bytes.truncate(length);
    match String::from_utf8(bytes) {
        Ok(word) => Ok(word),
        Err(_) => Err(Status::Usage),
    }
}

/// The word at a place, or none behind the last one.
fn word_at(rt: &HostRuntime, place: usize) -> Result<Option<String>, Status> {
    let mut room = FIRST_ROOM;
    for _ in 0..DOUBLINGS {
        let mut bytes = zeros(rt, room)?;
        match rt.arg(place, &mut bytes) {
            Ok(length) => return Ok(Some(word_of(bytes, length)?)),
            Err(FillError::NotPresent) => return Ok(None),
            Err(FillError::TooLong) => room = room.saturating_mul(2),
        }
    }
    Err(Status::NoMemory)
}

/// The words after the program's name, which need not be UTF-8.
fn words(rt: &HostRuntime) -> Result<Vec<String>, Status> {
    let mut words = Vec::new(rt.alloc());
    for place in 1..usize::MAX {
        let Some(word) = word_at(rt, place)? else {
            break;
        };
        if words.push(word).is_err() {
            return Err(Status::NoMemory);
        }
    }
    Ok(words)
}

fn main(rt: HostRuntime) -> ExitCode {
    let status = match words(&rt) {
        Ok(words) => pam(
            &rt,
            rt.alloc(),
            &words,
            &mut StdSource::new(&rt),
            &mut StdSink::new(&rt),
            &FreeGate,
        ),
        Err(status) => status,
    };
    ExitCode::from(status.code())
}
