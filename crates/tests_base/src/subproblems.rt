use crate::comparing::equal;
use dp_model::{Sub, fold};
use std::test::Fail;

#[test]
fn a_copy_has_its_own_memory(rt: HostRuntime) -> Result<(), Fail> {
    let mut copy = Sub::blank(rt.alloc(), 3, 1)?;
    equal(&rt, copy.row.as_slice(), [0i64].as_slice());
    let mut source = Sub::blank(rt.alloc(), 3, 1)?;
    source.decisions.push(1)?;
    source.value = 60;
    source.bound = 121;
    assert!(rt; source.decisions.len() <= 3 && source.row.len() == copy.row.len());
    copy.copy_from(&source);
    equal(&rt, copy.decisions.as_slice(), [1u32].as_slice());
    equal(&rt, (copy.value, copy.bound), (60, 121));
    Ok(())
}

#[test]
fn each_row_has_its_fold(rt: HostRuntime) {
    let rows: [(u64, &[i64], u64); 4] = [
        (0, &[], 0),
        (1, &[], 0x7f4a_7c15_9e37_79b9),
        (0, &[1], 0xce48_59b9_df44_2d22),
        (3, &[5, -7, 1_099_511_627_776, 0], 0x441d_e1ed_4116_16c7),
    ];
    for (start, row, wanted) in rows {
        equal(&rt, fold(start, row), wanted);
    }
}
