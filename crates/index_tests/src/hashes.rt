//! Hashes of words and the rows that they name, against vectors of FNV-1a and an independent model.
use term_hash::{fnv, row_of};

/// Bytes, the byte after them, and the hash of both.
static HASHES: [(&str, u8, u64); 3] = [
    ("", 97, 0xaf63_dc4c_8601_ec8c),
    ("a", 0, 0x089b_e207_b544_f1e4),
    ("fooba", 114, 0x8594_4171_f739_67e8),
];

#[test]
fn the_tail_is_hashed_as_one_more_byte(rt: HostRuntime) {
    for (bytes, tail, hash) in &HASHES {
        assert_eq!(rt; fnv(bytes.as_bytes(), *tail), *hash);
    }
}

/// A word, which of its rows, among how many, and the row's number. Among so many rows that the remainder shows all bits of
/// the hash, its high half is mixed in.
static ROWS: [(&str, u8, u32, u32); 3] = [
    ("a", 0, 600, 259),
    ("a", 0, u32::MAX, 0xc67a_f5ea),
    ("fooba", 114, 600, 97),
];

/// How many of these rows have that number.
fn right_rows() -> usize {
    let mut right: usize = 0;
    for (word, j, rows, row) in &ROWS {
        let rows = *rows;
        if 1 <= rows && row_of(word.as_bytes(), *j, rows) == *row {
            right = right.saturating_add(1);
        }
    }
    right
}

#[test]
fn a_row_is_the_remainder_of_the_mixed_hash(rt: HostRuntime) {
    assert_eq!(rt; right_rows(), ROWS.len());
}
