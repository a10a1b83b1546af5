//! Entries that are found, written where the caller says.
ghost use Rattle.std.specs.Prelude.{◌≡◌, ◌<◌, ◌≤◌, MatchResult, false, length, true};
ghost use Rattle.loose.specs.Arrays.{overwritten};
ghost use Rattle.text_handle.specs.Places.{Lays, place};

use aug_monoid::{Bytes, NoMemory};
use map_handle::status::{NO_MEMORY, NO_ROOM, NOT_THERE, OK};

/// Writes an entry that is found, or how many bytes its key has.
pub(crate) fn write_found(
    found: Result<Option<(Bytes, u64)>, NoMemory>,
    key: &mut [u8],
    len: &mut usize,
    val: &mut u64,
) -> u8
    ensures { MatchResult found (λ entry. Lays entry result (place key.old len.old val.old) (place key.new len.new val.new)) (λ _. (result ≡ 7) × (place key.new len.new val.new ≡ place key.old len.old val.old)) }
{
    match found {
        Ok(Some((bytes, what))) => {
            if !write_key(bytes.as_slice(), key, len) {
                return NO_ROOM;
            }
            *val = what;
            OK
        }
        Ok(None) => NOT_THERE,
        Err(_) => NO_MEMORY,
    }
}

/// Writes a key to the front of an array that has room for it, and how many bytes it has; whether there is room.
fn write_key(bytes: &[u8], key: &mut [u8], len: &mut usize) -> bool
    ensures len { len.new ≡ length bytes.now }
    ensures fits { result ≡ true → (length bytes.now ≤ length key.old) × (key.new ≡ overwritten key.old bytes.now) }
    ensures short { result ≡ false → (length key.old < length bytes.now) × (key.new ≡ key.old) }
{
    *len = bytes.len();
    if bytes.len() > key.len() {
        return false;
    }
    let (front, _behind) = key.split_at_mut(bytes.len());
    front.copy_from_slice(bytes);
    true
}
