mod books;
mod covers;
mod journals;
mod meeting;
mod offers;
mod partial;
mod tables;
mod wide;
mod words;

use commands::run;
use disk::MemDisk;
use search_workers::{Gate, NoGate};
use std::alloc::Global;
use std::process::Abort;
use std::sync::Wait;
use std::thread::Threads;
use streams::{MemSink, MemSource};

const THREE_ITEMS: &str = "3 10\n60 5\n50 4\n70 6\n";

/// Ten items, on which the two kinds of children lead to searches of different length.
const TEN_ITEMS: &str =
    "10 229\n39 9\n16 2 3\n11 20\n87 50 3\n85 11 3\n44 40\n38 17 3\n79 46\n68 5\n46 33 3\n";

/// The clauses that are drawn on two variables from seed 0.
const DRAWN_CLAUSES: &str = "p wcnf 2 4\n10 1 -1 0\n10 2 0\n2 1 2 0\n7 -1 -2 0\n";

/// The distances and windows that are drawn for three nodes from seed 0.
const DRAWN_TOURS: &str = "3\n0 10 35\n35 0 28\n23 45 0\n0 101\n0 50\n0 78\n";

/// The words of a line.
fn words_of(rt: &impl Abort, alloc: Global, line: &str) -> Vec<String> {
    let mut words = Vec::new(alloc);
    for word in line.split_ascii_whitespace() {
        let word = String::from_str(alloc, word).expect(rt, "a word");
        words.push(word).expect(rt, "the words");
    }
    words
}

/// What a run prints, its status, and its disk.
#[derive(Drop)]
struct Told {
    text: MemSink,
    status: u8,
    disk: MemDisk,
}

/// Whether it prints this, with this status.
fn says(told: &Told, text: &str, status: u8) -> bool {
    told.text.taken() == text.as_bytes() && told.status == status
}

/// Runs the words of a line on an input, into a sink and over a disk.
fn run_between<R: Abort + Threads + Wait + Sync, G: Gate + Sync>(
    rt: &R,
    alloc: Global,
    line: &str,
    mut input: MemSource,
    mut text: MemSink,
    disk: MemDisk,
    gate: &G,
) -> Told {
    let words = words_of(rt, alloc, line);
    let ended = run(
        rt,
        alloc,
        words.as_slice(),
        &mut input,
        &mut text,
        disk,
        gate,
    );
    Told {
        text,
        status: ended.status,
        disk: ended.disk,
    }
}

/// A source of these bytes, of which these calls fail.
fn source_of(rt: &impl Abort, alloc: Global, bytes: &[u8], failing: &[u64]) -> MemSource {
    let bytes = bytes.to_vec(alloc).expect(rt, "the bytes");
    MemSource::new(bytes, failing.to_vec(alloc).expect(rt, "the calls"))
}

/// Runs the words of a line on an input, over a file with these bytes.
fn run_over<R: Abort + Threads + Wait + Sync>(
    rt: &R,
    alloc: Global,
    line: &str,
    input: &[u8],
    file: Vec<u8>,
) -> Told {
    run_between(
        rt,
        alloc,
        line,
        source_of(rt, alloc, input, &[]),
        MemSink::new(alloc, Vec::new(alloc)),
        MemDisk::new(file, Vec::new(alloc)),
        &NoGate,
    )
}

/// Runs the words of a line on an input, over a copy of the file.
fn run_on<R: Abort + Threads + Wait + Sync>(
    rt: &R,
    alloc: Global,
    line: &str,
    input: &str,
    file: &[u8],
) -> Told {
    let file = file.to_vec(alloc).expect(rt, "a file");
    run_over(rt, alloc, line, input.as_bytes(), file)
}

/// Runs the words of a line on an input, and with no file.
fn run_line<R: Abort + Threads + Wait + Sync>(
    rt: &R,
    alloc: Global,
    line: &str,
    input: &[u8],
) -> Told {
    run_over(rt, alloc, line, input, Vec::new(alloc))
}

/// Whether what is printed begins with this, with this status.
fn begins(told: &Told, text: &str, status: u8) -> bool {
    told.text.taken().starts_with(text.as_bytes()) && told.status == status
}

/// Whether a check accepts what is printed.
fn is_accepted<R: Abort + Threads + Wait + Sync>(rt: &R, alloc: Global, told: &Told) -> bool {
    let verdict = run_line(rt, alloc, "check", told.text.taken());
    says(&verdict, "accepted\n", 0)
}

/// What is printed for each case begins as it must, and a check accepts it.
fn prints_accepted<R: Abort + Threads + Wait + Sync>(rt: &R, alloc: Global, cases: &[Case]) {
    for (line, input, text, status) in cases.iter().copied() {
        let told = run_line(rt, alloc, line, input.as_bytes());
        let right = begins(&told, text, status) && is_accepted(rt, alloc, &told);
        assert!(rt; right, "{line} on {input}");
    }
}

/// The words of a line, an input, what is printed, and the status.
type Case = (&'static str, &'static str, &'static str, u8);

/// Compares what the run of a case has printed, and its status.
fn is_printed(rt: &impl Abort, told: &Told, case: Case) {
    let (line, input, text, status) = case;
    let seen = (told.text.taken(), told.status);
    assert_eq!(rt; seen, (text.as_bytes(), status), "{line} on {input}");
}

/// Each case is printed as it must be.
fn prints<R: Abort + Threads + Wait + Sync>(rt: &R, alloc: Global, cases: &[Case]) {
    for case in cases.iter().copied() {
        let told = run_line(rt, alloc, case.0, case.1.as_bytes());
        is_printed(rt, &told, case);
    }
}

/// Reports of each problem, and instances that are drawn.
const PRINTED: &[Case] = &[
    (
        "solve knapsack",
        THREE_ITEMS,
        "proved\nvalue 120\nassignment 0 1 1\n",
        0,
    ),
    (
        "solve knapsack --workers 4 --width 1",
        THREE_ITEMS,
        "proved\nvalue 120\nassignment 0 1 1\n",
        0,
    ),
    (
        "solve knapsack --workers 4 --width 1 --cutset frontier",
        THREE_ITEMS,
        "proved\nvalue 120\nassignment 0 1 1\n",
        0,
    ),
    (
        "solve knapsack",
        "2 7\n10 3 2\n7 2 3\n",
        "proved\nvalue 24\nassignment 1 2\n",
        0,
    ),
    (
        "solve knapsack",
        "0 5\n",
        "proved\nvalue 0\nassignment\n",
        0,
    ),
    (
        "solve knapsack",
        "2 0\n5 0\n9 1\n",
        "proved\nvalue 5\nassignment 1 0\n",
        0,
    ),
    (
        "solve knapsack --budget 0",
        THREE_ITEMS,
        "stopped budget\nvalue none\nbound 121\n",
        2,
    ),
    (
        "solve --stats knapsack --budget=0",
        THREE_ITEMS,
        "stopped budget\nvalue none\nbound 121\ntaken 0\nfinished 0\n",
        2,
    ),
    (
        "solve knapsack --width 1 --budget 1",
        THREE_ITEMS,
        "stopped budget\nvalue 110\nassignment 1 1 0\nbound 121\n",
        2,
    ),
    (
        "solve knapsack --width 1 --stats",
        THREE_ITEMS,
        "proved\nvalue 120\nassignment 0 1 1\ntaken 3\nfinished 3\n",
        0,
    ),
    (
        "solve knapsack --width 1 --within 10 --stats",
        THREE_ITEMS,
        "proved within 10\nvalue 110\nassignment 1 1 0\ntaken 1\nfinished 1\n",
        0,
    ),
    (
        "solve knapsack --width 1 --within 9 --stats",
        THREE_ITEMS,
        "proved within 9\nvalue 120\nassignment 0 1 1\ntaken 3\nfinished 3\n",
        0,
    ),
    (
        "solve knapsack --width 4 --stats",
        TEN_ITEMS,
        "proved\nvalue 709\nassignment 1 3 0 3 3 0 1 0 1 0\ntaken 10\nfinished 10\n",
        0,
    ),
    (
        "solve knapsack --width 4 --stats --cutset frontier",
        TEN_ITEMS,
        "proved\nvalue 709\nassignment 1 3 0 3 3 0 1 0 1 0\ntaken 9\nfinished 9\n",
        0,
    ),
    (
        "solve maxcut",
        "3 3\n1 2 3\n2 3 1\n1 3 2\n",
        "proved\nvalue 5\nassignment 0 1 1\n",
        0,
    ),
    (
        "solve maxcut",
        "2 1\n1 2 -4\n",
        "proved\nvalue 0\nassignment 0 0\n",
        0,
    ),
    (
        "solve qubo",
        "5 9\n1 1 6\n2 2 4\n3 3 5\n4 4 -3\n5 5 2\n1 2 -7\n2 4 6\n3 5 -4\n1 4 2\n",
        "proved\nvalue 13\nassignment 1 1 1 1 0\n",
        0,
    ),
    (
        "solve max2sat",
        "p wcnf 2 4\n3 1 2 0\n2 -1 2 0\n4 1 -2 0\n1 -1 -2 0\n",
        "proved\nvalue 9\nassignment 1 1\n",
        0,
    ),
    (
        "solve max2sat",
        "p wcnf 1 3\n5 1 -1 0\n2 -1 0\n1 1 1 0\n",
        "proved\nvalue 7\nassignment 0\n",
        0,
    ),
    (
        "solve max2sat",
        "p wcnf 3 1\n1 1 2 3 0\n",
        "instance three-literals 2 7\n",
        3,
    ),
    (
        "solve max2sat",
        "c a comment\np cnf 2 3\n1 2 0\n-1 2 0\n1 -2 0\n%\n0\n",
        "proved\nvalue 3\nassignment 1 1\n",
        0,
    ),
    (
        "solve tsptw",
        "3\n0 2 9\n2 0 3\n4 3 0\n0 100\n5 20\n0 30\n",
        "proved\nvalue -12\nassignment 1 2 0\n",
        0,
    ),
    (
        "solve tsptw",
        "3\n0 2 9\n2 0 3\n4 3 0\n0 100\n5 20\n0 1\n",
        "infeasible\n",
        1,
    ),
    (
        "solve tsptw",
        "3\n0 2 9\n2 0 3\n4 3 0\n0 100\n5 20\n0 8\n",
        "proved\nvalue -12\nassignment 1 2 0\n",
        0,
    ),
    (
        "solve tsptw",
        "1\n0\n0 10\n",
        "proved\nvalue 0\nassignment 0\n",
        0,
    ),
    (
        "solve tardiness",
        "3\n3 1 4\n2 3 2\n4 2 9\n",
        "proved\nvalue -1\nassignment 1 0 2\n",
        0,
    ),
    ("generate knapsack 2 0", "", "2 68\n1 19 2\n18 49 2\n", 0),
    ("generate maxcut 2 0", "", "2 1\n1 2 -4\n", 0),
    (
        "generate qubo 1 0",
        "",
        "1 4\n1 1 39\n1 1 -57\n1 1 -38\n1 1 18\n",
        0,
    ),
    ("generate max2sat 2 0", "", DRAWN_CLAUSES, 0),
    ("generate tsptw 3 0", "", DRAWN_TOURS, 0),
    ("generate tardiness 2 0", "", "2\n1 9 8\n8 9 7\n", 0),
];

#[test]
fn prints_what_it_must(rt: HostRuntime) {
    prints(&rt, rt.alloc(), PRINTED);
}

/// Words and inputs with a fault, and what stands beside a fault and is none.
const REFUSED: &[Case] = &[
    ("solve knapsack", "", "instance end-of-text 1 1\n", 3),
    ("solve knapsack", "x\n", "instance not-number 1 1\n", 3),
    (
        "solve knapsack",
        "1001 5\n",
        "instance out-of-range 1 1\n",
        3,
    ),
    (
        "digest knapsack",
        "3 10\n60 5\n",
        "instance end-of-text 3 1\n",
        3,
    ),
    ("solve knapsack", "0 5\n7\n", "instance trailing 2 1\n", 3),
    ("solve knapsack", "\u{e9}\n", "instance not-ascii 1 1\n", 3),
    ("solve maxcut", "2 1\n1 3 5\n", "instance vertex 2 3\n", 3),
    (
        "solve qubo",
        "2 1\n2 1 5\n",
        "instance out-of-range 2 3\n",
        3,
    ),
    ("solve tsptw", "1\n0\n5 4\n", "instance window 3 3\n", 3),
    (
        "solve tardiness",
        "1\n3 1\n",
        "instance end-of-text 3 1\n",
        3,
    ),
    (
        "solve max2sat",
        "p cnf 1 2\n1 0\n",
        "instance count 3 1\n",
        3,
    ),
    (
        "solve max2sat",
        "p wcnf 1 1 10\n10 1 0\n",
        "instance hard 2 1\n",
        3,
    ),
    (
        "solve max2sat",
        "p wcnf 1 1 10\n9 1 0\n",
        "proved\nvalue 9\nassignment 1\n",
        0,
    ),
    (
        "solve max2sat",
        "p wcnf 1 2\n281474976710656 1 0\n1 -1 0\n",
        "instance limit 3 1\n",
        3,
    ),
    ("solve max2sat", "h 1 0\n", "instance word 1 1\n", 3),
    ("", THREE_ITEMS, "words usage\n", 4),
    ("solve", THREE_ITEMS, "words usage\n", 4),
    ("solve knapsak", THREE_ITEMS, "words model\n", 4),
    (
        "solve knapsack --width 0",
        THREE_ITEMS,
        "words number width\n",
        4,
    ),
    ("solve knapsack --width 1242757", THREE_ITEMS, "width\n", 4),
    (
        "solve knapsack --width 3 --width 4",
        THREE_ITEMS,
        "words usage\n",
        4,
    ),
    (
        "solve knapsack --cutset x",
        THREE_ITEMS,
        "words cutset\n",
        4,
    ),
    (
        "solve knapsack --budget 18446744073709551616",
        THREE_ITEMS,
        "words number budget\n",
        4,
    ),
    ("generate knapsack 1001 0", "", "words number n\n", 4),
    ("check", THREE_ITEMS, "cover word 1 1\n", 3),
    (
        "solve knapsack --workers 17",
        THREE_ITEMS,
        "words number workers\n",
        4,
    ),
    (
        "solve knapsack --within 1125899906842625",
        THREE_ITEMS,
        "words number within\n",
        4,
    ),
];

#[test]
fn refuses_at_the_place(rt: HostRuntime) {
    prints(&rt, rt.alloc(), REFUSED);
}

/// Runs the words of a case over a source and a sink of which these calls fail.
fn fails_between<R: Abort + Threads + Wait + Sync>(
    rt: &R,
    alloc: Global,
    case: Case,
    failing_reads: &[u64],
    failing_writes: &[u64],
) {
    let failing = failing_writes.to_vec(alloc).expect(rt, "the calls");
    let told = run_between(
        rt,
        alloc,
        case.0,
        source_of(rt, alloc, case.1.as_bytes(), failing_reads),
        MemSink::new(alloc, failing),
        MemDisk::new(Vec::new(alloc), Vec::new(alloc)),
        &NoGate,
    );
    is_printed(rt, &told, case);
}

#[test]
fn solves_what_it_draws(rt: HostRuntime) {
    let report = "proved\nvalue 19\nassignment 1 1\ntaken 1\nfinished 1\n";
    let case = ("generate knapsack 2 0 --solve", "", report, 0);
    fails_between(&rt, rt.alloc(), case, &[0], &[]);
}

#[test]
fn tells_faults_of_the_outside(rt: HostRuntime) {
    let line = "solve knapsack";
    let unread = (line, THREE_ITEMS, "read fault\n", 6);
    fails_between(&rt, rt.alloc(), unread, &[0], &[]);
    let unwritten = (line, THREE_ITEMS, "", 7);
    fails_between(&rt, rt.alloc(), unwritten, &[], &[0]);
    let neither = (line, THREE_ITEMS, "", 6);
    fails_between(&rt, rt.alloc(), neither, &[0], &[0]);
}

/// The digest of the three items.
const DIGEST: &str = "88b310997f4897e8b02cdec421c4964c734a77532e09709e47d7dbfee26f1db5\n";

/// One instance in two texts.
const DIGESTED: &[Case] = &[
    ("digest knapsack", THREE_ITEMS, DIGEST, 0),
    (
        "digest knapsack",
        "3  10\n60  5  1\n50  4  1\n70  6  1\n",
        DIGEST,
        0,
    ),
];

#[test]
fn one_instance_has_one_digest(rt: HostRuntime) {
    prints(&rt, rt.alloc(), DIGESTED);
}
