use crate::boards::{items, last_value, meet_over_board, open_board};
use crate::books::{Collection, collected};
use crate::workers::{close, count_all, meet, open};
use std::process::Abort;
use std::test::Fail;

#[test]
fn workers_count_to_the_limit(rt: HostRuntime) -> Result<(), Fail> {
    for (workers, limit) in [(1, 10), (2, 1000), (4, 20_000)] {
        let counter = count_all(&rt, rt.alloc(), limit, workers)?;
        assert!(rt; counter.best() == Some(limit as i64 - 1));
    }
    Ok(())
}

/// Both seats find 110, and the closed turn has it too.
fn both_find(
    rt: &impl Abort,
    found: Option<(Option<i64>, Option<Option<i64>>)>,
    left: Option<i64>,
) {
    assert!(rt; (found, left) == (Some((Some(110), Some(Some(110)))), Some(110)));
}

/// Every later holder finds what a seat wrote and left, and the closed turn gives it.
#[test]
fn two_seats_over_a_counter(rt: HostRuntime) -> Result<(), Fail> {
    let (turn, mut seats) = open(rt.alloc(), 200, 2)?;
    let found = meet(&rt, &turn, seats.as_mut_slice(), 110);
    let counter = close(turn, seats);
    both_find(&rt, found, counter.best());
    Ok(())
}

/// The same over a board: both seats find what a seat offered and left, and the closed turn gives it.
#[test]
fn two_seats(rt: HostRuntime) {
    let model = items(&rt, rt.alloc());
    let (turn, mut seats) = open_board(&rt, rt.alloc(), model);
    let found = meet_over_board(&rt, rt.alloc(), &turn, seats.as_mut_slice(), &[1, 1, 0]);
    let left = last_value(search_workers::close(turn, seats));
    both_find(&rt, found, left);
}

/// One worker puts a diagram into its book for each subproblem that it finishes. A book without room stays empty.
#[test]
fn one_worker_collects(rt: HostRuntime) {
    let roomy = collected(&rt, rt.alloc(), 1_000_000);
    assert!(rt;
        roomy
            == Collection {
                pages: 3,
                finished: 3
            }
    );
    let full = collected(&rt, rt.alloc(), 1);
    assert!(rt;
        full == Collection {
            pages: 0,
            finished: 3
        }
    );
}
