//! What the bytes of a map begin with.
ghost use Rattle.std.specs.Prelude.{◌≡◌, ◌<◌, ◌++◌, drop, MatchResult};
ghost use Rattle.entry_bytes.specs.Faults.{IsHeaderFault, header_fault};
ghost use Rattle.entry_bytes.specs.Format.{header};

use crate::fault::DecodeFault;

/// The magic, the version and the kind.
pub(crate) const HEADER: [u8; 6] = *b"PAMB\x01\x01";

/// Of a wrong byte at a place of the header.
fn fault_at(at: usize) -> DecodeFault
    ensures { result ≡ header_fault at }
{
    if at < 4 {
        DecodeFault::Magic
    } else if at == 4 {
        DecodeFault::Version
    } else {
        DecodeFault::Kind
    }
}

/// Reads the header.
pub(crate) fn read_header(bytes: &[u8]) -> Result<(), DecodeFault>
    ensures { MatchResult result (λ _. bytes.now ≡ header ++ drop 6 bytes.now) (λ fault. IsHeaderFault fault bytes.now) }
{
    let mut at = 0;
    while at < HEADER.len() {
        if at >= bytes.len() {
            return Err(DecodeFault::Short);
        }
        if bytes[at] != HEADER[at] {
            return Err(fault_at(at));
        }
        at += 1;
    }
    Ok(())
}
