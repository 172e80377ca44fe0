// The own error of worked moves.
use super::*;
use tpz_base::{Move, Point};

#[test]
fn the_longest_move_counts(rt: HostRuntime) {
    let a = Point { x: 5, y: 0, z: 9 };
    let b = Point { x: 4, y: 8, z: 9 };
    assert_eq!(rt; own_error(&[]), 0);
    assert_eq!(rt;
        own_error(&[Move { from: a, to: b }, Move { from: a, to: a }]),
        8
    );
}
