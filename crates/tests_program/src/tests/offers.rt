use crate::tests::{
    THREE_ITEMS, is_printed, run_between, run_line, run_on, run_over, says, source_of,
};
use disk::MemDisk;
use search_workers::NoGate;
use std::alloc::Global;
use std::process::Abort;
use std::sync::Wait;
use std::thread::Threads;
use streams::MemSink;

/// A search of the three items that is stopped with a solution of value 110, and something open.
const STOPPED: &str = "solve knapsack --width 1 --budget 1 --journal j";

/// A search that goes on with the offers of the input, and takes nothing.
const OFFERED: &str = "resume j --incumbent --budget 0";

/// A report without a solution, and one with a better solution.
const BETTER: &str =
    "settled\npart 0/2\njournal 000102030405060708090a0b0c0d0e0f101112131415161718191a1b1c1d1e1f\nvalue none\nsettled within 7\npart 3/2\njournal 000102030405060708090a0b0c0d0e0f101112131415161718191a1b1c1d1e1f\nvalue 120\nassignment 0 1 1\n";

/// A report without a solution, and one with another value than that of its decisions.
const UNTRUE: &str =
    "settled\npart 0/2\njournal 000102030405060708090a0b0c0d0e0f101112131415161718191a1b1c1d1e1f\nvalue none\nsettled\npart 1/2\njournal 000102030405060708090a0b0c0d0e0f101112131415161718191a1b1c1d1e1f\nvalue 121\nassignment 0 1 1\n";

/// The file that is left of the search of a line.
fn file_of<R: Abort + Threads + Wait + Sync>(rt: &R, alloc: Global, line: &str) -> Vec<u8> {
    let told = run_line(rt, alloc, line, THREE_ITEMS.as_bytes());
    told.disk.bytes().to_vec(alloc).expect(rt, "a file")
}

/// The journal of the one part of the search that is stopped.
fn part_of<R: Abort + Threads + Wait + Sync>(rt: &R, alloc: Global) -> Vec<u8> {
    let file = file_of(rt, alloc, STOPPED);
    let told = run_over(rt, alloc, "split j --part 0/1", b"", file);
    told.text.taken().to_vec(alloc).expect(rt, "a part")
}

/// What is printed by a search that goes on from a file and takes nothing: without offers, with the offers, and later without them.
fn takes_offers<R: Abort + Threads + Wait + Sync>(
    rt: &R,
    alloc: Global,
    file: &[u8],
    before: &'static str,
    after: &'static str,
    status: u8,
) {
    let line = "resume j --budget 0";
    let alone = run_on(rt, alloc, line, "", file);
    is_printed(rt, &alone, (line, "", before, 2));
    let offered = run_on(rt, alloc, OFFERED, BETTER, file);
    is_printed(rt, &offered, (OFFERED, BETTER, after, status));
    let later = run_on(rt, alloc, line, "", offered.disk.bytes());
    is_printed(rt, &later, (line, "", after, status));
}

#[test]
fn a_whole_search_takes_offers(rt: HostRuntime) {
    let alloc = rt.alloc();
    let file = file_of(&rt, alloc, STOPPED);
    takes_offers(
        &rt,
        alloc,
        file.as_slice(),
        "stopped budget\nvalue 110\nassignment 1 1 0\nbound 121\n",
        "stopped budget\nvalue 120\nassignment 0 1 1\nbound 121\n",
        2,
    );
}

#[test]
fn a_part_takes_offers(rt: HostRuntime) {
    let alloc = rt.alloc();
    let file = part_of(&rt, alloc);
    takes_offers(
        &rt,
        alloc,
        file.as_slice(),
        "stopped budget\npart 0/1\njournal c0a464c295213b76a483de3c9e1cbaa128d9bd73832a4c59d1c64349302f9159\nvalue 110\nassignment 1 1 0\nbound 121\n",
        "stopped budget\npart 0/1\njournal c0a464c295213b76a483de3c9e1cbaa128d9bd73832a4c59d1c64349302f9159\nvalue 120\nassignment 0 1 1\nbound 121\n",
        2,
    );
}

#[test]
fn an_untrue_offer_is_refused(rt: HostRuntime) {
    let alloc = rt.alloc();
    let file = file_of(&rt, alloc, STOPPED);
    let told = run_on(&rt, alloc, OFFERED, UNTRUE, file.as_slice());
    is_printed(&rt, &told, (OFFERED, UNTRUE, "reports value 1\n", 9));
    assert!(rt; told.disk.bytes() == file.as_slice());
}

#[test]
fn a_malformed_report_is_refused_before_the_disk_is_touched(rt: HostRuntime) {
    let alloc = rt.alloc();
    let failing = [0].to_vec(alloc).expect(&rt, "the call");
    let input = "settled\npart 0/1\n";
    let told = run_between(
        &rt,
        alloc,
        OFFERED,
        source_of(&rt, alloc, input.as_bytes(), &[]),
        MemSink::new(alloc, Vec::new(alloc)),
        MemDisk::new(Vec::new(alloc), failing),
        &NoGate,
    );
    is_printed(&rt, &told, (OFFERED, input, "report end-of-text 3 1\n", 3));
}

/// What is printed with the better offer for a search that has ended within the distance of 10, and the status: where the disk fails before
/// the record of the offer, at that record, and later or never.
const ENDED: &[(&str, u8)] = &[
    ("disk fault\n", 10),
    ("proved within 10\nvalue 110\nassignment 1 1 0\n", 0),
    ("proved within 10\nvalue 120\nassignment 0 1 1\n", 0),
];

/// More disk calls than a search makes that has ended and goes on with one offer.
const MORE_CALLS: u64 = 30;

/// The place of what is printed where only the call with this number fails.
fn place_at<R: Abort + Threads + Wait + Sync>(
    rt: &R,
    alloc: Global,
    file: &[u8],
    call: u64,
) -> Option<usize> {
    let file = file.to_vec(alloc).expect(rt, "a file");
    let failing = [call].to_vec(alloc).expect(rt, "the call");
    let told = run_between(
        rt,
        alloc,
        "resume j --incumbent",
        source_of(rt, alloc, BETTER.as_bytes(), &[]),
        MemSink::new(alloc, Vec::new(alloc)),
        MemDisk::new(file, failing),
        &NoGate,
    );
    ENDED.iter().position(|ended| says(&told, ended.0, ended.1))
}

#[test]
fn an_offer_at_the_end_is_taken_or_the_disk_has_failed(rt: HostRuntime) {
    let alloc = rt.alloc();
    let line = "solve knapsack --width 1 --within 10 --journal j";
    let file = file_of(&rt, alloc, line);
    let mut last = 0;
    for call in 0..MORE_CALLS {
        let place = place_at(&rt, alloc, file.as_slice(), call);
        let right = place.is_some_and(|place| last <= place && place - last <= 1);
        assert!(rt; right, "call {call}");
        last = place.unwrap_or(last);
    }
    assert_eq!(rt; last, 2);
}
