//! Adler-32, the checksum of zlib.
ghost use Rattle.std.specs.Prelude.{◌≡◌, ◌+◌, ◌<◌, ◌≤◌, ◌%◌, length, sum};
ghost use Rattle.entry_bytes.specs.Adler.{adler32, sum_of_sums};

const MODULUS: u64 = 65521;

/// So many bytes are added up before the sums are reduced, so that there is no division for each byte.
const RUN: usize = 65536;

/// The sum of the bytes so far, and the sum of these sums.
#[derive(Clone, Copy)]
struct Sums {
    low: u64,
    high: u64,
}

/// The sums after a run of bytes.
fn add_run(sums: Sums, bytes: &[u8]) -> Sums
    requires short { length bytes.now ≤ 65536 }
    requires low { sums.low < 65521 }
    requires high { sums.high < 65521 }
    ensures low { result.low ≡ (sums.low + sum bytes.now) % 65521 }
    ensures high { result.high ≡ (sums.high + sum_of_sums sums.low bytes.now) % 65521 }
    ensures low_below { result.low < 65521 }
    ensures high_below { result.high < 65521 }
{
    let mut low = sums.low;
    let mut high = sums.high;
    for byte in bytes {
        low += *byte as u64;
        high += low;
    }
    Sums {
        low: low % MODULUS,
        high: high % MODULUS,
    }
}

/// The checksum of some bytes.
pub(crate) fn checksum_of(bytes: &[u8]) -> u32
    ensures { result ≡ adler32 bytes.now }
{
    let mut sums = Sums { low: 1, high: 0 };
    let mut at = 0;
    while at < bytes.len() {
        let end = bytes.len().min(at.saturating_add(RUN));
        sums = add_run(sums, &bytes[at..end]);
        at = end;
    }
    (sums.high * 65536 + sums.low) as u32
}
