//! Numbers as LEB128 bytes: seven bits a byte, the low ones first, in the shortest form.
ghost use Rattle.std.specs.Prelude.{◌≡◌, ◌+◌, ◌<◌, ◌^◌, [], ◌∷◌, ◌++◌, length, take, drop, OnErr, OnOk};
ghost use Rattle.gap_code.specs.Leb.{leb, number_of, BeginsWith};

use aug_monoid::NoMemory;

/// Appends the bytes of a number, of which there are at most ten. A refusal leaves some of them behind what stood there before.
#[tactic(auto, using(map_model::proofs::Prefixes::front_same, map_model::proofs::Prefixes::front_then))]
#[inline]
pub fn push_number(out: &mut Vec<u8>, number: u64) -> Result<(), NoMemory>
    ensures appended { OnOk result (out.new.items ≡ out.old.items ++ leb number) }
    ensures kept { take (length out.old.items) out.new.items ≡ out.old.items }
{
    let mut rest = number;
    while rest >= 128 {
        push_byte(out, (128 + rest % 128) as u8)?;
        rest /= 128;
    }
    push_byte(out, rest as u8)
}

/// How many bytes a number takes.
#[inline]
pub fn number_len(number: u64) -> usize
    ensures { result ≡ length (leb number) }
{
    let mut rest = number;
    let mut len = 1;
    while rest >= 128 {
        len += 1;
        rest /= 128;
    }
    len
}

#[inline(always)]
fn push_byte(out: &mut Vec<u8>, byte: u8) -> Result<(), NoMemory>
    ensures appended { OnOk result (out.new.items ≡ out.old.items ++ byte ∷ []) }
    ensures refused { OnErr result (out.new.items ≡ out.old.items) }
{
    out.push(byte)?;
    Ok(())
}

/// The number whose bytes stand at a place, and the place after it.
#[inline(always)]
pub fn number_at(from: &[u8], at: usize) -> (u64, usize)
    requires { BeginsWith (λ n. n < 2 ^ 64) leb (drop at from.now) }
    ensures value { result.0 ≡ number_of (drop at from.now) }
    ensures after { result.1 ≡ at + length (leb (number_of (drop at from.now))) }
{
    let mut place = at;
    let mut value = 0;
    let mut scale = 1;
    while from[place] >= 128 {
        value += (from[place] - 128) as u64 * scale;
        scale *= 128;
        place += 1;
    }
    (value + from[place] as u64 * scale, place + 1)
}

/// The place after the number whose bytes stand at a place, which is not read.
#[inline(always)]
pub(crate) fn number_end(from: &[u8], at: usize) -> usize
    requires { BeginsWith (λ n. n < 2 ^ 64) leb (drop at from.now) }
    ensures { result ≡ at + length (leb (number_of (drop at from.now))) }
{
    let mut place = at;
    while from[place] >= 128 {
        place += 1;
    }
    place + 1
}
