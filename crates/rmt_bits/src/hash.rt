//! The hash of exact look-ups.

ghost use Rattle.std.specs.Prelude.{◌≡◌, ℕ, ◌*◌, ◌%◌, ◌^◌, ◌<◌, ◌≤◌, bit_xor, fold};
ghost use Rattle.rmt_bits.specs.Hash.{fnv as fnv_of, fnv_step, hash_row as hash_row_of};

const FNV_START: u64 = 14695981039346656037;

const FNV_PRIME: u64 = 1099511628211;

fn mixed(hash: u64, byte: u8) -> u64
    ensures { result ≡ fnv_step hash byte }
{
    (hash ^ u64::from(byte)).wrapping_mul(FNV_PRIME)
}

fn fnv_from(start: u64, bytes: &[u8]) -> u64
    ensures { result ≡ fold fnv_step start bytes.now }
{
    let mut hash = start;
    for byte in bytes {
        hash = mixed(hash, *byte);
    }
    hash
}

/// The 64-bit FNV-1a hash of these bytes.
pub fn fnv(bytes: &[u8]) -> u64
    ensures { result ≡ fnv_of bytes.now }
{
    fnv_from(FNV_START, bytes)
}

/// The row, below `rows`, of a key in a way: what the high 32 bits of the hash of the seed, the
/// way's number and the key's bytes leave. There must be a row.
pub fn hash_row(seed: u8, way: u8, key: &[u8], rows: u32) -> u32
    requires { 1 ≤ rows }
    ensures value { result ≡ hash_row_of seed way key.now rows }
    ensures within { result < rows }
{
    let hash = fnv_from(mixed(mixed(FNV_START, seed), way), key);
    ((hash >> 32) % u64::from(rows)) as u32
}
