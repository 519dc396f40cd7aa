//! Bits of bytes, bytes of bits, the hash of bytes, and runs of bits.

use rmt_bits::bits::{bits_of_bytes, bytes_of_bits, deposit, slice};
use rmt_bits::hash::{fnv, hash_row};
use rmt_bits::lane::word_size;

/// Bytes and their hash.
const HASHES: [(&[u8], u64); 3] = [
    (b"", 0xcbf2_9ce4_8422_2325),
    (b"a", 0xaf63_dc4c_8601_ec8c),
    (b"foobar", 0x8594_4171_f739_67e8),
];

#[test]
fn hash_and_cells(rt: HostRuntime) {
    for &(bytes, hash) in &HASHES {
        assert!(rt; fnv(bytes) == hash);
    }
    // the hash of the bytes 66, 6f, 6f and so on, under the seed and way 66 and 6f
    assert!(rt; hash_row(0x66, 0x6f, b"obar", 1024) == 0x8594_4171 % 1024);
}

/// Three bytes, and behind their first 6 bits 12 others.
fn put_within() -> [u8; 3] {
    let mut bytes = [0xab, 0xcd, 0xef];
    bytes_of_bits(0x123, 12, &mut bytes, 6);
    bytes
}

#[test]
fn runs_of_bits(rt: HostRuntime) {
    assert!(rt; bits_of_bytes(&[0xab, 0xcd, 0xef], 4, 12) == 0xbcd);
    assert!(rt; put_within() == [0xa8, 0x48, 0xef]);
    assert!(rt; word_size(159) == 16);
    assert!(rt; slice(u128::MAX, 0, 128) == u128::MAX);
    assert!(rt; slice(u128::MAX, 128, 0) == 0);
    assert!(rt; deposit(0xabcd, 4, 8, 0x12) == 0xa12d);
    assert!(rt; deposit(7, 0, 128, u128::MAX) == u128::MAX);
}
