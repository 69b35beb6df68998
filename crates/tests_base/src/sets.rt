use crate::comparing::equal;
use node_sets::*;

#[test]
fn members_are_inserted(rt: HostRuntime) {
    let mut row = [7i64, 9];
    clear(&mut row);
    insert(&mut row, 0);
    insert(&mut row, 32);
    insert(&mut row, 40);
    equal(&rt, row, [1, 257]);
}

#[test]
fn members_are_looked_up(rt: HostRuntime) {
    let row = [1i64, 257];
    equal(
        &rt,
        (count(&row), least(&row), is_empty(&row)),
        (3, Some(0), false),
    );
    let at_word_ends = [contains(&row, 0), contains(&row, 31), contains(&row, 32)];
    equal(&rt, at_word_ends, [true, false, true]);
    equal(&rt, [contains(&row, 40), contains(&row, 63)], [true, false]);
    for (from, next) in [(0, Some(0)), (1, Some(32)), (33, Some(40)), (41, None)] {
        equal(&rt, next_of_either(&[1, 257], &[1, 257], from), next);
    }
}

#[test]
fn rows_are_sets_of_numbers_below(rt: HostRuntime) {
    for (n, is) in [
        (33u8, false),
        (40, false),
        (41, true),
        (64, true),
        (65, false),
    ] {
        equal(&rt, (n, is_set(&[1, 257], usize::from(n))), (n, is));
    }
}

#[test]
fn members_come_in_order(rt: HostRuntime) {
    let row = [9i64, 0, 2147483648];
    let mut rest = Members::of(&row);
    for member in [Some(0), Some(3), Some(95), None, None] {
        equal(&rt, rest.next(), member);
    }
}

#[test]
fn rows_are_written_whole(rt: HostRuntime) {
    let mut row = [7i64, 9];
    write_others(&mut row, 34);
    equal(&rt, row, [4294967294, 3]);
    write_one(&mut row, 33);
    equal(&rt, row, [0, 2]);
}

#[test]
fn rows_are_split(rt: HostRuntime) {
    let (mut row, mut must, mut may) = ([7i64, 9], [7i64, 7], [7i64, 7]);
    write_split(&mut row, &mut must, &mut may, &[6, 3], &[1, 8], 33);
    equal(&rt, [row, must, may], [[0, 2], [6, 1], [1, 8]]);
}

#[test]
fn two_sets_make_one(rt: HostRuntime) {
    let mut row = [0b1000i64];
    union_with(&mut row, &[0b0011]);
    equal(&rt, row, [0b1011]);
}

#[test]
fn sets_are_compared(rt: HostRuntime) {
    let (odd, low, high) = ([0b1010i64], [0b0011i64], [0b1000i64]);
    equal(
        &rt,
        [is_subset(&high, &odd), is_subset(&odd, &low)],
        [true, false],
    );
    equal(&rt, is_disjoint(&high, &low), true);
    equal(&rt, is_union_subset(&high, &low, &odd, &low), true);
    equal(&rt, is_union_subset(&odd, &low, &high, &high), false);
}

#[test]
fn what_must_be_and_may_be_is_joined(rt: HostRuntime) {
    let (mut must, mut may) = ([0b00110i64], [0b01000i64]);
    join(&mut must, &mut may, &[0b00010], &[0b10000]);
    equal(&rt, [must, may], [[0b00010], [0b11100]]);
}
