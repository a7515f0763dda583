ghost use Rattle.std.specs.Prelude.{◌≡◌};
ghost use Rattle.term_hash.specs.Hash.{fnv_1a, fnv_step, hash_of, mixed};

/// Where FNV-1a of 64 bits starts.
const OFFSET_BASIS: u64 = 0xcbf2_9ce4_8422_2325;

/// What FNV-1a of 64 bits multiplies by at each byte.
const PRIME: u64 = 0x0100_0000_01b3;

/// FNV-1a of 64 bits (Fowler, Noll and Vo) of the bytes followed by `tail`.
pub fn fnv(bytes: &[u8], tail: u8) -> u64
    ensures { result ≡ hash_of bytes.now tail }
{
    take_in(fnv_1a_of(bytes), tail)
}

/// FNV-1a of 64 bits of the bytes alone.
pub(crate) fn fnv_1a_of(bytes: &[u8]) -> u64
    ensures { result ≡ fnv_1a bytes.now }
{
    bytes
        .iter()
        .fold(OFFSET_BASIS, |hash, byte| take_in(hash, *byte))
}

/// The hash with its high half mixed into its low half, so that a remainder depends on both.
pub(crate) fn mix(hash: u64) -> u64
    ensures { result ≡ mixed hash }
{
    hash ^ (hash >> 32)
}

/// Takes in one more byte.
pub(crate) fn take_in(hash: u64, byte: u8) -> u64
    ensures { result ≡ fnv_step hash byte }
{
    (hash ^ u64::from(byte)).wrapping_mul(PRIME)
}
