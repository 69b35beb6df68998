use crate::tests::{THREE_ITEMS, Told, run_between, says, source_of};
use disk::MemDisk;
use search_workers::NoGate;
use std::alloc::Global;
use std::process::Abort;
use std::sync::Wait;
use std::thread::Threads;
use streams::MemSink;

/// The search of the three items with its journal in a file.
const SEARCH: &str = "solve knapsack --width 1 --journal j";

/// What it prints, with status 0.
const BEST: &str = "proved\nvalue 120\nassignment 0 1 1\n";

/// What it prints, with status 2, where it stops at its first record.
const STOPPED: &str = "stopped journal\nvalue none\nbound 121\n";

/// What is printed, with status 5, where a search is to go on and no journal has begun.
const NOT_BEGUN: &str = "journal not-begun\n";

/// The first disk call of the first record, after those that begin the journal.
const FIRST_RECORD: u64 = 9;

/// The first disk call of the last record, which is the fifth one.
const LAST_RECORD: u64 = FIRST_RECORD + 4 * 4;

/// How many calls the search makes.
const ALL_CALLS: u64 = LAST_RECORD + 4;

/// Runs the words of a line on the three items over a disk.
fn run_on<R: Abort + Threads + Wait + Sync>(
    rt: &R,
    alloc: Global,
    line: &str,
    disk: MemDisk,
) -> Told {
    let input = source_of(rt, alloc, THREE_ITEMS.as_bytes(), &[]);
    let text = MemSink::new(alloc, Vec::new(alloc));
    run_between(rt, alloc, line, input, text, disk, &NoGate)
}

/// The same over a file with these bytes.
fn run_over<R: Abort + Threads + Wait + Sync>(
    rt: &R,
    alloc: Global,
    line: &str,
    file: &[u8],
) -> Told {
    let file = file.to_vec(alloc).expect(rt, "a file");
    run_on(rt, alloc, line, MemDisk::new(file, Vec::new(alloc)))
}

/// The same over a disk of which only the call with this number fails.
fn run_failing<R: Abort + Threads + Wait + Sync>(
    rt: &R,
    alloc: Global,
    line: &str,
    call: u64,
) -> Told {
    let failing = [call].to_vec(alloc).expect(rt, "the call");
    run_on(rt, alloc, line, MemDisk::new(Vec::new(alloc), failing))
}

/// Whether it prints the best solution, with status 0.
fn is_best(told: &Told) -> bool {
    says(told, BEST, 0)
}

/// Runs the words of a line over a file with these bytes, and compares what is printed, and the status.
fn prints_on<R: Abort + Threads + Wait + Sync>(
    rt: &R,
    alloc: Global,
    line: &str,
    file: &[u8],
    text: &str,
    status: u8,
) {
    let told = run_over(rt, alloc, line, file);
    let printed = (told.text.taken(), told.status);
    assert_eq!(rt; printed, (text.as_bytes(), status), "{line}");
}

/// The bytes of the file of a run.
fn file_of(rt: &impl Abort, alloc: Global, told: &Told) -> Vec<u8> {
    told.disk.bytes().to_vec(alloc).expect(rt, "a file")
}

/// The file that the whole search leaves.
fn whole_file<R: Abort + Threads + Wait + Sync>(rt: &R, alloc: Global) -> Vec<u8> {
    let told = run_over(rt, alloc, SEARCH, &[]);
    file_of(rt, alloc, &told)
}

/// Where its gates stand, and whether they are open.
const GATES: &[(usize, u8)] = &[
    (0, 1),
    (75, 1),
    (137, 1),
    (235, 1),
    (285, 1),
    (347, 1),
    (397, 0),
];

/// Whether the gates of the file stand where they are to stand.
fn has_gates(file: &[u8]) -> bool {
    GATES
        .iter()
        .all(|gate| file.get(gate.0).copied() == Some(gate.1))
}

#[test]
fn a_search_leaves_its_journal(rt: HostRuntime) {
    let file = whole_file(&rt, rt.alloc());
    let read = (file.len(), has_gates(file.as_slice()));
    assert_eq!(rt; read, (398, true));
}

#[test]
fn a_journal_is_gone_on_from(rt: HostRuntime) {
    let alloc = rt.alloc();
    let file = whole_file(&rt, alloc);
    let file = file.as_slice();
    let counted = "proved\nvalue 120\nassignment 0 1 1\ntaken 0\nfinished 0\n";
    prints_on(&rt, alloc, "resume j", file, BEST, 0);
    prints_on(&rt, alloc, "resume j --stats", file, counted, 0);
    let again = "solve knapsack --journal j";
    prints_on(&rt, alloc, again, file, "journal exists\n", 5);
}

#[test]
fn a_changed_byte_is_damage(rt: HostRuntime) {
    let alloc = rt.alloc();
    let mut file = whole_file(&rt, alloc);
    if let Some(byte) = file.get_mut(88) {
        *byte ^= 1;
    }
    let damaged = "journal damaged 75\n";
    prints_on(&rt, alloc, "resume j", file.as_slice(), damaged, 5);
}

/// Files in hexadecimal digits, and how the search of each goes on: with another first record, of other versions, with a distance
/// that is too small and one that is too great, with wrong records after the head, with a snapshot in a journal of version 1,
/// with wrong snapshots, and with one after which the tickets run out.
const REFUSED: &[(&str, &str)] = &[
    ("01", NOT_BEGUN),
    (
        "0103000000250000000201000000000000000000000014332031300a363020350a353020340a373020360ae8fef6e29a37df6970a8ff715dec38e66db500e00ffabd838a25e01fa12c1f8c00",
        "journal malformed 0\n",
    ),
    (
        "0101000000250000000901000000000000000000000014332031300a363020350a353020340a373020360a119ec9fe18c4de94d584f06a1eff6135872f65a22b5c7af63595100de0781c7400",
        "journal version 9\n",
    ),
    (
        "0101000000250000000001000000000000000000000014332031300a363020350a353020340a373020360a282a69258751bcd0bef0824b77e9b7010be12047430ab05f151f01482d071e2500",
        "journal version 0\n",
    ),
    (
        "0101000000250000000201ffffffffffffffff00000014332031300a363020350a353020340a373020360ae6498d3abe88aca32bbc48067016843fac0922e1d8795bf02c1267fac7f04b2600",
        "journal malformed 0\n",
    ),
    (
        "0101000000250000000201000400000000000100000014332031300a363020350a353020340a373020360af3f6d03a35419b78449bb13875f4aa497d3464e0173e436305e82d713b109cd300",
        "journal malformed 0\n",
    ),
    (
        "0101000000250000000201000000000000000000000014332031300a363020350a353020340a373020360aabb9b151f9a6767344f3a4544cc434d3c64a064948c132d445382beb323546b8010200000018000000000000006e00000003000000010000000100000001a01757ea85cc57c2d83a2adb989c4478687a3810b0a606103e3250d1683ece1e00",
        "journal no-solution 75\n",
    ),
    (
        "0101000000250000000201000000000000000000000014332031300a363020350a353020340a373020360aabb9b151f9a6767344f3a4544cc434d3c64a064948c132d445382beb323546b8010200000018000000000000006f000000030000000100000001000000008f9c94ec50fd5ace1d96c7497a99ff2c42807176229fa769da02973729a5b25900",
        "journal malformed 75\n",
    ),
    (
        "01010000001d000000010100000014332031300a363020350a353020340a373020360a52964171cd488ba3853cb62d078166c91ac554cd60dba8b8c17dab01863e7a83010400000021000000000000000001000000010000000000000000000000000000007900000000ceb2d7b0396c988caaa37d07c0004ed3548b4442a31a971f6b8a6215bb17d89700",
        "journal malformed 67\n",
    ),
    (
        "0101000000250000000201000000000000000000000014332031300a363020350a353020340a373020360aabb9b151f9a6767344f3a4544cc434d3c64a064948c132d445382beb323546b80104000000390100000000000000b4000000030000000100000001000000010000000000000001000000010000000000000000000000000000007900000000ef8fb428f858b28332fb60d47c241804a05ff3085a3c68b95b41fbacdca6f29900",
        "journal no-solution 75\n",
    ),
    (
        "0101000000250000000201000000000000000000000014332031300a363020350a353020340a373020360aabb9b151f9a6767344f3a4544cc434d3c64a064948c132d445382beb323546b801040000003901000000000000006f000000030000000100000001000000000000000000000001000000010000000000000000000000000000007900000000726ade48f190c179c65c6c563f1778835d3a65b08e99a411b108bbd277b1b39d00",
        "journal malformed 75\n",
    ),
    (
        "0101000000250000000201000000000000000000000014332031300a363020350a353020340a373020360aabb9b151f9a6767344f3a4544cc434d3c64a064948c132d445382beb323546b8010400000021000000000000000001000000010000000000000001000000000000007900000000ac58846c9d7cb1a2d2e636525ebe37d36dd3e999c1266b2cae5a8fbae2afedc600",
        "journal malformed 75\n",
    ),
    (
        "0101000000250000000201000000000000000000000014332031300a363020350a353020340a373020360aabb9b151f9a6767344f3a4544cc434d3c64a064948c132d445382beb323546b801040000002100ffffffffffffffff0000000100000000000000000000000000000079000000001c9cd9c2a2a8ddbfdbcf017ec81abf465354a76995f3abaadfc93434e9a3459c010300000024000000000000000000000001ffffffffffffffff00000000000000780000000100000000b886ad6836619fdcdc9896400258f0686ca8a3ccbe6e52e2fb24be1d8b4ee09700",
        "journal malformed 146\n",
    ),
];

#[test]
fn journals_are_refused(rt: HostRuntime) {
    let alloc = rt.alloc();
    for (digits, text) in REFUSED.iter().copied() {
        let file = hex::decode(alloc, digits).expect(&rt, "a file");
        prints_on(&rt, alloc, "resume j", file.as_slice(), text, 5);
    }
}

/// What a crash has left of the search's journal in a file of version 1: the head, the solution of 110, the root with two children,
/// and a closed gate.
const VERSION_ONE: &str =
    "01010000001d000000010100000014332031300a363020350a353020340a373020360a52964171cd488ba3853cb62d078166c91ac554cd60dba8b8c17dab01863e7a83010200000018000000000000006e000000030000000100000001000000007615177a84edd55f388ddf2b03ae7d53a15cb29a662da4db4b62bf1b10ea03a701030000003c000000000000000000000002ffffffffffffffff00000000000000790000000100000001ffffffffffffffff00000000000000780000000100000000495fdfa123fdf44dc92f6d2f105de1312d380c57003bce9188447b8307e16f5100";

/// How a search of version 1 begins: the byte of the gate, the kind of the head, the length of its body, and the version.
const VERSION_ONE_HEAD: &[u8] = b"\x01\x01\x00\x00\x00\x1d\x00\x00\x00\x01";

#[test]
fn a_journal_of_version_one_is_gone_on_from(rt: HostRuntime) {
    let alloc = rt.alloc();
    let file = hex::decode(alloc, VERSION_ONE).expect(&rt, "a file");
    let told = run_over(&rt, alloc, "resume j --width 1", file.as_slice());
    assert!(rt; is_best(&told));
    let left = told.disk.bytes();
    let read = (left.len() > file.len(), left.starts_with(VERSION_ONE_HEAD));
    assert_eq!(rt; read, (true, true));
    prints_on(&rt, alloc, "resume j", left, BEST, 0);
}

#[test]
fn a_journal_has_the_distance_of_its_search(rt: HostRuntime) {
    let alloc = rt.alloc();
    let near = "proved within 10\nvalue 110\nassignment 1 1 0\n";
    let told = run_over(
        &rt,
        alloc,
        "solve knapsack --width 1 --within 10 --journal j",
        &[],
    );
    assert!(rt; says(&told, near, 0));
    prints_on(&rt, alloc, "resume j", told.disk.bytes(), near, 0);
}

/// What the search may print where only the call with this number fails.
fn failed_once(told: &Told, call: u64) -> bool {
    if call < FIRST_RECORD {
        return says(told, "disk fault\n", 10);
    }
    if call < LAST_RECORD {
        return told.text.taken().starts_with(b"stopped journal\n") && told.status == 2;
    }
    is_best(told)
}

/// Whether the search whose file has these bytes goes on to the best solution.
fn goes_on_to_best<R: Abort + Threads + Wait + Sync>(rt: &R, alloc: Global, file: &[u8]) -> bool {
    let told = run_over(rt, alloc, "resume j", file);
    is_best(&told)
}

/// Whether the search over a disk of which one call fails prints what it may, and goes on to the best solution where it stopped.
fn one_fails<R: Abort + Threads + Wait + Sync>(rt: &R, alloc: Global, call: u64) -> bool {
    let told = run_failing(rt, alloc, SEARCH, call);
    failed_once(&told, call) && (told.status != 2 || goes_on_to_best(rt, alloc, told.disk.bytes()))
}

#[test]
fn one_failing_call_is_told(rt: HostRuntime) {
    for call in 0..=ALL_CALLS {
        let right = one_fails(&rt, rt.alloc(), call);
        assert!(rt; right, "call {call}");
    }
}

/// Whether the search stops at its first record, where this call fails.
fn stops_at<R: Abort + Threads + Wait + Sync>(rt: &R, alloc: Global, call: u64) -> bool {
    let told = run_failing(rt, alloc, SEARCH, call);
    says(&told, STOPPED, 2)
}

#[test]
fn a_write_of_the_first_record_fails(rt: HostRuntime) {
    for call in [FIRST_RECORD, FIRST_RECORD + 2] {
        let right = stops_at(&rt, rt.alloc(), call);
        assert!(rt; right, "call {call}");
    }
}

/// Whether a run over a disk that passes this many calls prints the best solution, and what a crash leaves of its file.
fn crashed<R: Abort + Threads + Wait + Sync>(
    rt: &R,
    alloc: Global,
    line: &str,
    file: Vec<u8>,
    calls: u64,
    fill: &[u8],
) -> (bool, Vec<u8>) {
    let told = run_on(rt, alloc, line, MemDisk::fused(file, calls));
    let best = is_best(&told);
    let image = told.disk.crash(fill).expect(rt, "an image");
    let left = image.bytes().to_vec(alloc).expect(rt, "a file");
    (best, left)
}

/// Whether the search of what was left goes on to the best solution, or no journal has begun.
fn goes_on<R: Abort + Threads + Wait + Sync>(rt: &R, alloc: Global, left: &[u8]) -> bool {
    let told = run_over(rt, alloc, "resume j", left);
    is_best(&told) || says(&told, NOT_BEGUN, 5)
}

/// Whether a search that is cut off after this many calls prints the best solution exactly where that is before its last record, and goes
/// on after the crash.
fn cut_off<R: Abort + Threads + Wait + Sync>(
    rt: &R,
    alloc: Global,
    calls: u64,
    fill: &[u8],
) -> bool {
    let (best, left) = crashed(rt, alloc, SEARCH, Vec::new(alloc), calls, fill);
    best == (calls >= LAST_RECORD) && goes_on(rt, alloc, left.as_slice())
}

/// What a crash puts where a sync is wanting.
const FILLS: &[&[u8]] = &[b"", b"\x00", b"\x01", b"\x07"];

/// It does so whatever the crash puts where a sync is wanting.
fn cut_off_each<R: Abort + Threads + Wait + Sync>(rt: &R, alloc: Global, calls: u64) {
    for fill in FILLS.iter().copied() {
        let right = cut_off(rt, alloc, calls, fill);
        assert!(rt; right, "after {calls}");
    }
}

#[test]
fn a_search_goes_on_after_each_crash(rt: HostRuntime) {
    for calls in 0..=ALL_CALLS {
        cut_off_each(&rt, rt.alloc(), calls);
    }
}

/// Whether what was left of a search goes on after a further crash.
fn cut_off_again<R: Abort + Threads + Wait + Sync>(
    rt: &R,
    alloc: Global,
    left: &[u8],
    calls: u64,
) -> bool {
    let file = left.to_vec(alloc).expect(rt, "a file");
    let (_, again) = crashed(rt, alloc, "resume j", file, calls, b"\x07");
    goes_on(rt, alloc, again.as_slice())
}

/// Each further crash of a search that was cut off after this many calls.
fn cut_off_twice<R: Abort + Threads + Wait + Sync>(rt: &R, alloc: Global, calls: u64) {
    let (_, left) = crashed(rt, alloc, SEARCH, Vec::new(alloc), calls, b"\x07");
    for more in 0..=ALL_CALLS {
        let right = cut_off_again(rt, alloc, left.as_slice(), more);
        assert!(rt; right, "after {calls} and {more}");
    }
}

#[test]
fn a_search_goes_on_after_two_crashes(rt: HostRuntime) {
    for calls in 0..=ALL_CALLS {
        cut_off_twice(&rt, rt.alloc(), calls);
    }
}
