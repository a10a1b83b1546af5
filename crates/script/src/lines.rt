//! Lines of text: a word, and numbers behind commas.
ghost use Rattle.std.specs.Prelude.{◌≡◌, ◌+◌, ◌<◌, ◌≤◌, ◌++◌, ◌∷◌, ℕ, List, MatchResult, OnErr, decimal, length, vec_capacity};
ghost use Rattle.script.specs.Lines.{IsPrefix, code_word, comma, error_line_of, line_of, reply_of};

use crate::{BadRecord, Code};
use aug_monoid::NoMemory;
use itoa::Buffer;

fn code_word(code: Code) -> &'static str
    ensures { result.now ≡ code_word code }
{
    match code {
        Code::Verb => "verb",
        Code::Fields => "fields",
        Code::Number => "number",
        Code::Register => "register",
        Code::How => "how",
        Code::Term => "term",
        Code::Callers => "callers",
        Code::Caller => "caller",
        Code::Op => "op",
        Code::Interval => "interval",
        Code::Run => "run",
    }
}

fn push_bytes(out: &mut Vec<u8>, bytes: &[u8]) -> Result<(), NoMemory>
    ensures items { MatchResult result (λ _. out.new.items ≡ out.old.items ++ bytes.now) (λ _. out.new.items ≡ out.old.items) }
    ensures capacity { vec_capacity out.old ≤ vec_capacity out.new }
    ensures full { OnErr result (vec_capacity out.old < length out.old.items + length bytes.now) }
{
    match out.extend_from_slice(bytes) {
        Ok(()) => Ok(()),
        Err(_) => Err(NoMemory),
    }
}

#[tactic(auto, using(std::proofs::lemmas::Fmt::decimal_digit))]
fn push_number(out: &mut Vec<u8>, number: u64) -> Result<(), NoMemory>
    ensures items { MatchResult result (λ _. out.new.items ≡ out.old.items ++ decimal number) (λ _. out.new.items ≡ out.old.items) }
    ensures capacity { vec_capacity out.old ≤ vec_capacity out.new }
    ensures full { OnErr result (vec_capacity out.old < length out.old.items + length (decimal number)) }
{
    if number < 10 {
        return Ok(out.push(b'0' + number as u8)?);
    }
    let mut buffer = Buffer::new();
    push_bytes(out, buffer.format(number).as_bytes())
}

/// Appends a comma and a number, or the first part of them.
pub fn push_part(out: &mut Vec<u8>, number: u64) -> Result<(), NoMemory>
    ensures items { MatchResult result (λ _. out.new.items ≡ out.old.items ++ comma ∷ decimal number) (λ _. IsPrefix out.old.items out.new.items) }
    ensures capacity { vec_capacity out.old ≤ vec_capacity out.new }
    ensures full { OnErr result (vec_capacity out.old < length out.old.items + length (comma ∷ decimal number)) }
{
    out.push(b',')?;
    push_number(out, number)
}

/// Appends a word, and a comma and a number for each number, or the first part of them.
pub fn reply(out: &mut Vec<u8>, word: &str, numbers: &[u64]) -> Result<(), NoMemory>
    ensures { MatchResult result (λ _. out.new.items ≡ out.old.items ++ reply_of word.now numbers.now) (λ _. IsPrefix out.old.items out.new.items) }
{
    push_bytes(out, word.as_bytes())?;
    for number in numbers {
        push_part(out, *number)?;
    }
    Ok(())
}

// Appends a line, or the first part of it.
fn append_line(out: &mut Vec<u8>, word: &str, numbers: &[u64]) -> Result<(), NoMemory>
    ensures items { MatchResult result (λ _. out.new.items ≡ out.old.items ++ line_of word.now numbers.now) (λ _. IsPrefix out.old.items out.new.items) }
    ensures full { OnErr result (vec_capacity out.old < length out.old.items + length (line_of word.now numbers.now)) }
{
    push_bytes(out, word.as_bytes())?;
    for number in numbers {
        push_part(out, *number)?;
    }
    Ok(out.push(b'\n')?)
}

/// Appends a line, or nothing. It is not refused where the text has room for it.
pub fn line(out: &mut Vec<u8>, word: &str, numbers: &[u64]) -> Result<(), NoMemory>
    ensures items { MatchResult result (λ _. out.new.items ≡ out.old.items ++ line_of word.now numbers.now) (λ _. out.new.items ≡ out.old.items) }
    ensures full { OnErr result (vec_capacity out.old < length out.old.items + length (line_of word.now numbers.now)) }
{
    let start = out.len();
    let appended = append_line(out, word, numbers);
    if appended.is_err() {
        out.truncate(start);
    }
    appended
}

// Appends the line for a bad record, or the first part of it.
fn append_error_line(out: &mut Vec<u8>, bad: &BadRecord) -> Result<(), NoMemory>
    ensures { MatchResult result (λ _. out.new.items ≡ out.old.items ++ error_line_of bad.now) (λ _. IsPrefix out.old.items out.new.items) }
{
    push_bytes(out, b"error,")?;
    push_number(out, bad.place)?;
    push_bytes(out, b",")?;
    push_bytes(out, code_word(bad.code).as_bytes())?;
    push_bytes(out, b"\n")
}

/// Appends the line for a bad record, or nothing.
pub fn error_line(out: &mut Vec<u8>, bad: &BadRecord) -> Result<(), NoMemory>
    ensures { MatchResult result (λ _. out.new.items ≡ out.old.items ++ error_line_of bad.now) (λ _. out.new.items ≡ out.old.items) }
{
    let start = out.len();
    let appended = append_error_line(out, bad);
    if appended.is_err() {
        out.truncate(start);
    }
    appended
}
