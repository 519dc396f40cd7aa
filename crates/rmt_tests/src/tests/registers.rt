//! Registers of tails.

use rmt_config::tails::Tails;

/// A header, and its tail: where it starts, and how many bytes it has.
const KEPT: [(u8, (u16, u16)); 5] = [
    (0, (20, 40)),
    (5, (64, 60)),
    (63, (9216, 0)),
    (4, (0, 0)),
    (6, (0, 0)),
];

#[test]
fn replaces_the_tail_of_one_header(rt: HostRuntime) {
    let mut tails = Tails::new();
    for header in 0..64 {
        assert_eq!(rt; tails.get(header), (0, 0));
    }
    tails.set(0, 20, 40);
    tails.set(63, 9216, 0);
    tails.set(5, 61, 3);
    tails.set(5, 64, 60);
    for &(header, tail) in &KEPT {
        assert!(rt; header < 64);
        assert_eq!(rt; tails.get(header), tail, "header {header}");
    }
}
