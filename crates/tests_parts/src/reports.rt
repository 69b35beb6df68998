//! Reports of the parts of a search of three items, joined.

use journal_bytes::Incumbent;
use knapsack::Knapsack;
use part_reports::{PartReport, ReportFault, first_untested, join_reports};
use std::alloc::{AllocError, Global};
use std::process::Abort;
use std::test::Fail;

/// The number of a part, how many parts there are, the byte of which the digest is made, and the best solution with its value.
type Told<'a> = (u32, u32, u8, Option<(i64, &'a [u32])>);

/// The joined value with its place, or why the reports are refused.
type Joined = Result<(Option<i64>, Option<usize>), ReportFault>;

/// Three items in a room of 10.
fn three_items(rt: &impl Abort, alloc: Global) -> Knapsack {
    let model = knapsack::read(alloc, b"3 10\n60 5\n50 4\n70 6\n");
    assert!(rt; model.is_ok(), "the three items");
    model.expect(rt, "the three items")
}

/// The report that tells this.
fn report(alloc: Global, told: &Told<'_>) -> Result<PartReport, AllocError> {
    let (index, of, byte, best) = *told;
    let best = match best {
        Some((value, decisions)) => Some(Incumbent {
            value,
            decisions: Vec::from_slice(alloc, decisions)?,
        }),
        None => None,
    };
    Ok(PartReport {
        index,
        of,
        digest: [byte; 32],
        best,
    })
}

/// The reports that tell this.
fn reports(alloc: Global, told: &[Told<'_>]) -> Result<Vec<PartReport>, AllocError> {
    let mut reports = Vec::new(alloc);
    for one in told {
        reports.push(report(alloc, one)?)?;
    }
    Ok(reports)
}

/// What becomes of the reports beside an incumbent, for a journal of which each byte of the digest is 7.
fn joined(rt: &impl Abort, alloc: Global, incumbent: Option<i64>, told: &[Told<'_>]) -> Joined {
    let model = three_items(rt, alloc);
    let reports = reports(alloc, told)?;
    let found = join_reports(alloc, &model, &[7; 32], incumbent, reports.as_slice())?;
    Ok((found.value, found.place))
}

#[test]
fn the_greatest_value_is_told(rt: HostRuntime) -> Result<(), Fail> {
    let alloc = rt.alloc();
    let best = Some((120, [0, 1, 1].as_slice()));
    let less = Some((110, [1, 1, 0].as_slice()));
    for (incumbent, told, want) in [
        (None, [].as_slice(), (None, None)),
        (Some(60), &[], (Some(60), None)),
        (None, &[(0, 1, 7, None)], (None, None)),
        (Some(110), &[(0, 1, 7, None)], (Some(110), None)),
        (
            None,
            &[(0, 2, 7, less), (1, 2, 7, best)],
            (Some(120), Some(1)),
        ),
        (
            Some(120),
            &[(0, 2, 7, best), (1, 2, 7, less)],
            (Some(120), None),
        ),
        (
            Some(60),
            &[(0, 3, 7, None), (1, 3, 7, less), (2, 3, 7, less)],
            (Some(110), Some(1)),
        ),
    ] {
        assert_eq!(rt;
            joined(&rt, alloc, incumbent, told),
            Ok(want),
            "{} reports",
            told.len()
        );
    }
    Ok(())
}

#[test]
fn the_first_wrong_report_is_told(rt: HostRuntime) -> Result<(), Fail> {
    let alloc = rt.alloc();
    let best = Some((120, [0, 1, 1].as_slice()));
    let heavy = Some((130, [1, 0, 1].as_slice()));
    let short = Some((50, [0, 1].as_slice()));
    let praised = Some((121, [0, 1, 1].as_slice()));
    for (told, want) in [
        ([(0, 2, 7, best)].as_slice(), ReportFault::Part { place: 0 }),
        (
            &[(0, 2, 7, best), (0, 2, 7, best)],
            ReportFault::Part { place: 1 },
        ),
        (
            &[(1, 2, 7, best), (0, 2, 7, best)],
            ReportFault::Part { place: 0 },
        ),
        (
            &[(0, 2, 7, best), (1, 2, 8, best)],
            ReportFault::Journal { place: 1 },
        ),
        (&[(0, 1, 7, heavy)], ReportFault::Value { place: 0 }),
        (&[(0, 1, 7, short)], ReportFault::Value { place: 0 }),
        (
            &[(0, 2, 7, None), (1, 2, 7, praised)],
            ReportFault::Value { place: 1 },
        ),
    ] {
        assert_eq!(rt;
            joined(&rt, alloc, None, told),
            Err(want),
            "{} reports",
            told.len()
        );
    }
    Ok(())
}

#[test]
fn the_first_untested_solution_is_told(rt: HostRuntime) -> Result<(), Fail> {
    let alloc = rt.alloc();
    let model = three_items(&rt, alloc);
    let best = Some((120, [0, 1, 1].as_slice()));
    let less = Some((110, [1, 1, 0].as_slice()));
    let heavy = Some((130, [1, 0, 1].as_slice()));
    let short = Some((50, [0, 1].as_slice()));
    let praised = Some((121, [0, 1, 1].as_slice()));
    for (told, want) in [
        ([].as_slice(), None),
        (&[(0, 1, 7, None)], None),
        // The parts and the journals may be any.
        (&[(4, 5, 8, best), (4, 5, 9, less), (0, 2, 7, best)], None),
        (&[(0, 1, 7, heavy)], Some(0)),
        (&[(0, 1, 7, short)], Some(0)),
        (&[(0, 2, 7, None), (1, 2, 7, praised)], Some(1)),
        (
            &[(0, 3, 7, best), (1, 3, 7, heavy), (2, 3, 7, praised)],
            Some(1),
        ),
    ] {
        let reports = reports(alloc, told)?;
        assert_eq!(rt;
            first_untested(alloc, &model, reports.as_slice()),
            Ok(want),
            "{} reports",
            told.len()
        );
    }
    Ok(())
}
