//! A region of one row: it is taken once, written and read, given back, and taken again as zeros; then the region grows.

use crate::region::Region;
use std::test::Fail;

#[test]
#[tactic(auto, using(crate::proofs::Callers::taken_live, crate::proofs::Callers::with_row_live))]
fn a_row_is_taken_once(rt: HostRuntime) -> Result<(), Fail> {
    let mut region = Region::new(rt.alloc(), 2, 1)?;
    let Some(first) = region.take() else {
        return Err(Fail::from("no row is free at first"));
    };
    let None = region.take() else {
        return Err(Fail::from("a second row is free"));
    };
    assert_eq!(rt; region.row(first), [0, 0].as_slice());
    region.row_mut(first).fill(7);
    assert_eq!(rt; region.row(first), [7, 7].as_slice());
    assert_eq!(rt; region.cells(), [7, 7].as_slice());
    region.give(first);
    let Some(again) = region.take() else {
        return Err(Fail::from("the row that was given back is not free"));
    };
    assert_eq!(rt; region.row(again), [0, 0].as_slice());
    region.grow(1)?;
    assert_eq!(rt; region.spare(), 1);
    region.clear();
    assert_eq!(rt; (region.spare(), region.rows(), region.words()), (2, 2, 2));
    region.take_free();
    assert_eq!(rt; region.spare(), 1);
    Ok(())
}
