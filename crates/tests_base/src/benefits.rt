use crate::comparing::equal;
use benefit_rows::{above_zero, below_zero, doubled_gap, gap, gap_within, merge_into, rank, size};

#[test]
fn one_benefit(rt: HostRuntime) {
    for (benefit, above, below, all) in [(3i32, 3, 0, 3), (-4, 0, 4, 4), (0, 0, 0, 0)] {
        let benefit = i64::from(benefit);
        let found = (above_zero(benefit), below_zero(benefit), size(benefit));
        equal(&rt, found, (above, below, all));
    }
}

#[test]
fn ranks_and_gaps(rt: HostRuntime) {
    let from = [5i64, -2, 0, 4, -7];
    let to = [3i64, -6, 2, -1, -7];
    equal(&rt, (rank(&from), rank(&[])), (18, 0));
    // 0 + 4 + 2 + 1 + 0, and back 2 + 0 + 0 + 4 + 0
    equal(&rt, (gap(&from, &to), gap(&to, &from)), (7, 6));
    equal(&rt, doubled_gap(-1, 4), 8);
}

/// The gap of 7 between the rows, where that is at most `most`.
fn seven_within(most: i64) -> Option<i64> {
    gap_within(&[5, -2, 0, 4, -7], 18, &[3, -6, 2, -1, -7], 19, most)
}

#[test]
fn gaps_within_a_number(rt: HostRuntime) {
    for (most, within) in [(7, Some(7)), (6, None), (-1, None), (i64::MAX, Some(7))] {
        equal(&rt, (most, seven_within(most)), (most, within));
    }
}

/// The gap of 3 from a row whose rank is no number below 2^30, where that is at most `most`.
fn three_within(most: i64) -> Option<i64> {
    let from = [1_073_741_824i64, -2, 0, 0, 0, 0, 0, 0, 1];
    let to = [1_073_741_820i64, -5, 0, 0, 0, 0, 0, 0, 1];
    gap_within(&from, 1_073_741_827, &to, 1_073_741_826, most)
}

#[test]
fn gaps_of_great_benefits(rt: HostRuntime) {
    for (most, within) in [(3, Some(3)), (2, None), (i64::MAX, Some(3))] {
        equal(&rt, (most, three_within(most)), (most, within));
    }
}

#[test]
fn rows_are_merged(rt: HostRuntime) {
    let mut merged = [5i64, -2, 0, 4, -7];
    merge_into(&mut merged, &[3, -6, 2, -1, -7]);
    equal(&rt, merged, [3, -2, 0, 0, -7]);
}
