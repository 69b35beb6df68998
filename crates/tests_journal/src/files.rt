//! Journals in files: what is written, what is read back, and what each stop of a run leaves.

ghost use Rattle.std.specs.Prelude.{◌≡◌, ℕ, ◌<◌, ◌^◌, pos, length, false, None, IfSome, IsTrue};
ghost use Rattle.journal_bytes.specs.Spelling.{HasSpelling, IsOfVersion};
ghost use Rattle.journal_bytes.specs.Views.{record_view};
ghost use Rattle.journal_file.specs.Settled.{IsReady};

use crate::replaying::ITEMS;
use disk::{Disk, FileDisk, MemDisk};
use journal_file::{
    AppendError, Child, Head, JournalError, Record, Records, Tail, append, begin, reopen,
};
use problem_names::ModelName;
use std::alloc::Global;
use std::process::Abort;

/// The journal of a search of the knapsack `3 10`, `60 5`, `50 4`, `70 6` by one worker with one decision a layer: its head,
/// the solution 110, the root finished with two children, the first finished, the solution 120, the second finished.
const SEARCH: &str = "\
    0101000000250000000201000000000000000000000014332031300a363020350a353020340a373020360aabb9b151f\
    9a6767344f3a4544cc434d3c64a064948c132d445382beb323546b8010200000018000000000000006e000000030000\
    000100000001000000005556f1b6caeec0a5d2fb4a8ee3e86e21c6c36a13edff5a340cdd2708bc77c5a901030000003\
    c000000000000000000000002ffffffffffffffff00000000000000790000000100000001ffffffffffffffff000000\
    00000000780000000100000000c0a464c295213b76a483de3c9e1cbaa128d9bd73832a4c59d1c64349302f915901030\
    000000c0000000000000001000000000fdd83aee09ad5d58a3096a9c3e8898f0b2ffc1c3d5f8df7e258241f1c3c4f41\
    0102000000180000000000000078000000030000000000000001000000014390ae96b1ca022a89e4695f19c67d7b78b\
    9d30276e3e0460682ac8fa61e3b5101030000000c000000000000000200000000fc5722428d3520afa8a144fea6daac\
    86f8cf6021db34e706d401b5fb845b190e00";

/// Its records after the head.
const RECORDS: &str = "Records { within: 0, first: 75, records: [\
    Improve { value: 110, decisions: [1, 1, 0] }, \
    Finish { ticket: 0, children: [\
    Child { replaced: None, bound: 121, decisions: [1] }, Child { replaced: None, bound: 120, decisions: [0] }] }, \
    Finish { ticket: 1, children: [] }, \
    Improve { value: 120, decisions: [0, 1, 1] }, \
    Finish { ticket: 2, children: [] }] }";

/// Where its head and its records begin.
const GATES: [u64; 6] = [0, 75, 137, 235, 285, 347];

/// Its closed gate.
const END: u64 = 397;

/// How many records a file has, or why it is refused.
type Count = Result<usize, JournalError>;

/// The head of a journal of the knapsack with this text, of a search for the best value.
pub(crate) fn head_of_text(rt: &impl Abort, alloc: Global, text: &[u8]) -> Head
    ensures text { result.text.items ≡ text.now }
    ensures within { result.within ≡ pos 0 }
    ensures part { result.part ≡ None }
{
    Head {
        model: ModelName::Knapsack,
        within: 0,
        part: None,
        text: Vec::from_slice(alloc, text).expect(rt, "memory"),
    }
}

fn improve(rt: &impl Abort, alloc: Global, value: i64, decisions: &[u32]) -> Record
    requires { length decisions.now < 2 ^ 20 }
    ensures spelling { HasSpelling (record_view result) }
    ensures version { (v : ℕ) → IsOfVersion v (record_view result) }
{
    Record::Improve {
        value,
        decisions: Vec::from_slice(alloc, decisions).expect(rt, "memory"),
    }
}

fn child(rt: &impl Abort, alloc: Global, bound: i64, decision: u32) -> Child
    ensures none { result.replaced ≡ None }
    ensures one { length result.decisions.items ≡ 1 }
{
    Child {
        replaced: None,
        bound,
        decisions: Vec::from_slice(alloc, &[decision]).expect(rt, "memory"),
    }
}

fn finish_with(rt: &impl Abort, alloc: Global, ticket: u64, first: Child, second: Child) -> Record
    requires none { (first.replaced ≡ None) × (second.replaced ≡ None) }
    requires one { (length first.decisions.items ≡ 1) × (length second.decisions.items ≡ 1) }
    ensures spelling { HasSpelling (record_view result) }
    ensures version { (v : ℕ) → IsOfVersion v (record_view result) }
{
    let mut children = Vec::with_capacity(alloc, 2).expect(rt, "memory");
    children.push_reserved(first);
    children.push_reserved(second);
    Record::Finish { ticket, children }
}

fn finish(alloc: Global, ticket: u64) -> Record
    ensures spelling { HasSpelling (record_view result) }
    ensures version { (v : ℕ) → IsOfVersion v (record_view result) }
{
    let children = Vec::new(alloc);
    Record::Finish { ticket, children }
}

/// A record of that search, by its number.
fn record(rt: &impl Abort, alloc: Global, number: usize) -> Record
    ensures spelling { HasSpelling (record_view result) }
    ensures version { (v : ℕ) → IsOfVersion v (record_view result) }
{
    match number {
        0 => improve(rt, alloc, 110, &[1, 1, 0]),
        1 => finish_with(
            rt,
            alloc,
            0,
            child(rt, alloc, 121, 1),
            child(rt, alloc, 120, 0),
        ),
        2 => finish(alloc, 1),
        3 => improve(rt, alloc, 120, &[0, 1, 1]),
        _ => finish(alloc, 2),
    }
}

/// Adds a record of that search, and tells whether it is acknowledged.
fn add<D: Disk>(
    rt: &impl Abort,
    alloc: Global,
    disk: &mut D,
    tail: &mut Tail,
    number: usize,
) -> bool
    requires { IsReady D.attached D.tells D.seen D.may_leave disk.old tail.old }
    ensures { IsTrue result → IsReady D.attached D.tells D.seen D.may_leave disk.new tail.new }
{
    append(alloc, disk, tail, &record(rt, alloc, number)).is_ok()
}

/// Begins the journal of that search.
fn begun<D: Disk>(rt: &impl Abort, alloc: Global, disk: &mut D) -> Option<Tail>
    ensures { IfSome result (λ tail. IsReady D.attached D.tells D.seen D.may_leave disk.new tail) }
{
    if disk.attach("j").is_err() {
        return None;
    }
    begin(alloc, disk, &head_of_text(rt, alloc, ITEMS)).ok()
}

/// Adds the records of that search, and tells how many were acknowledged.
fn go_on<D: Disk>(rt: &impl Abort, alloc: Global, disk: &mut D, begun: Tail) -> usize
    requires { IsReady D.attached D.tells D.seen D.may_leave disk.old begun }
{
    let mut tail = begun;
    for number in 0..5usize {
        if !add(rt, alloc, disk, &mut tail, number) {
            return number;
        }
    }
    5
}

/// Writes the journal of that search, and tells how many of its records after the head were acknowledged.
fn search<D: Disk>(rt: &impl Abort, alloc: Global, disk: &mut D) -> Option<usize> {
    let tail = begun(rt, alloc, disk)?;
    Some(go_on(rt, alloc, disk, tail))
}

/// Attaches the disk.
fn attach(rt: &impl Abort, disk: &mut MemDisk)
    ensures { IsTrue disk.new.is_attached }
{
    disk.attach("j").expect(rt, "attached");
}

/// The bytes of that journal.
fn search_bytes(rt: &impl Abort, alloc: Global) -> Vec<u8> {
    hex::decode(alloc, SEARCH).expect(rt, "the journal")
}

/// The file has these bytes.
fn has_bytes(rt: &impl Abort, found: &[u8], wanted: &[u8]) {
    assert_eq!(rt; found, wanted);
}

/// All records are acknowledged, and then the file has the bytes of that journal.
fn writes(rt: &impl Abort, alloc: Global, disk: &mut MemDisk) {
    assert_eq!(rt; search(rt, alloc, disk), Some(5));
    has_bytes(rt, disk.bytes(), search_bytes(rt, alloc).as_slice());
}

#[test]
fn a_search_is_written_byte_for_byte(rt: HostRuntime) {
    let alloc = rt.alloc();
    let mut disk = MemDisk::new(Vec::new(alloc), Vec::new(alloc));
    writes(&rt, alloc, &mut disk);
}

/// What a journal in a file of these bytes has.
fn opened(rt: &impl Abort, alloc: Global, bytes: Vec<u8>) -> (Head, Records, Tail) {
    let mut disk = MemDisk::new(bytes, Vec::new(alloc));
    attach(rt, &mut disk);
    reopen(alloc, &mut disk).expect(rt, "a journal")
}

/// The records print so.
fn prints(rt: &impl Abort, alloc: Global, records: &Records, wanted: &str) {
    let printed = format!(in alloc; "{records:?}").expect(rt, "memory");
    assert_eq!(rt; printed.as_str(), wanted);
}

/// The journal has this text, and goes on here.
fn has_text(rt: &impl Abort, head: &Head, tail: &Tail, wanted: (&[u8], u64)) {
    assert_eq!(rt; (head.text.as_slice(), tail.end), wanted);
}

#[test]
fn a_search_is_read_back(rt: HostRuntime) {
    let alloc = rt.alloc();
    let (head, records, tail) = opened(&rt, alloc, search_bytes(&rt, alloc));
    has_text(&rt, &head, &tail, (ITEMS, END));
    prints(&rt, alloc, &records, RECORDS);
}

/// How many records the file of the disk has.
fn count(rt: &impl Abort, alloc: Global, disk: &mut MemDisk) -> Count {
    attach(rt, disk);
    let (_, records, _) = reopen(alloc, disk)?;
    Ok(records.len_after_base())
}

/// How many records are in a file of these bytes.
fn count_in(rt: &impl Abort, alloc: Global, bytes: Vec<u8>) -> Count {
    let mut disk = MemDisk::new(bytes, Vec::new(alloc));
    count(rt, alloc, &mut disk)
}

/// What is read where the byte here is changed.
fn changed(rt: &impl Abort, alloc: Global, at: u64) -> Count {
    let mut bytes = search_bytes(rt, alloc);
    if let Some(byte) = bytes.get_mut(at as usize) {
        *byte ^= 0x55;
    }
    count_in(rt, alloc, bytes)
}

/// What is read where the file ends before the byte here.
fn cut(rt: &impl Abort, alloc: Global, at: u64) -> Count {
    let mut bytes = search_bytes(rt, alloc);
    bytes.truncate(at as usize);
    count_in(rt, alloc, bytes)
}

/// What is wanted of both, by the last gate that stands before, and by how many stand there or before.
fn wanted(at: u64) -> (Count, Count) {
    let mut before = 0u64;
    let mut here = 0usize;
    for gate in GATES {
        if gate < at {
            before = gate;
        }
        if gate <= at {
            here = here.saturating_add(1);
        }
    }
    let damaged = Err(JournalError::Damaged { offset: before });
    let cut = if at < 2 {
        Err(JournalError::NotBegun)
    } else {
        damaged
    };
    if at == 0 {
        return (Err(JournalError::NotBegun), cut);
    }
    if at == END {
        return (Ok(5), cut);
    }
    if GATES.contains(&at) {
        return (Ok(here.saturating_sub(2)), cut);
    }
    (damaged, cut)
}

/// Both are told as wanted.
fn tells(rt: &impl Abort, alloc: Global, at: u64) {
    let told = (changed(rt, alloc, at), cut(rt, alloc, at));
    assert_eq!(rt; told, wanted(at), "at {at}");
}

#[test]
fn a_changed_byte_or_an_early_end_is_told(rt: HostRuntime) {
    for at in 0..398u64 {
        tells(&rt, rt.alloc(), at);
    }
}

/// What a crash of the disk leaves.
fn left(rt: &impl Abort, alloc: Global, disk: MemDisk, fill: &[u8]) -> Count {
    let mut crashed = disk.crash(fill).expect(rt, "memory");
    count(rt, alloc, &mut crashed)
}

/// How many records are acknowledged where the disk stops after this many calls, and what a crash then leaves.
fn stopped(rt: &impl Abort, alloc: Global, fill: &[u8], calls: u64) -> (Option<usize>, Count) {
    let mut disk = MemDisk::fused(Vec::new(alloc), calls);
    let acknowledged = search(rt, alloc, &mut disk);
    (acknowledged, left(rt, alloc, disk, fill))
}

/// A crash leaves what was acknowledged, or one record more.
fn leaves(acknowledged: Option<usize>, left: Count) -> bool {
    match (acknowledged, left) {
        (None, Ok(records)) => records == 0,
        (None, Err(error)) => error == JournalError::NotBegun,
        (Some(some), Ok(records)) => records == some || records == some.saturating_add(1),
        (Some(_), Err(_)) => false,
    }
}

/// A stop after this many calls leaves what was acknowledged, and that is all exactly from 29 calls on.
fn stops(rt: &impl Abort, alloc: Global, fill: &[u8], calls: u64) {
    let (acknowledged, left) = stopped(rt, alloc, fill, calls);
    let found = (leaves(acknowledged, left), acknowledged == Some(5));
    assert_eq!(rt; found, (true, calls >= 29), "after {calls}");
}

/// So does each stop up to there.
fn stops_anywhere(rt: &impl Abort, alloc: Global, fill: &[u8]) {
    for calls in 0..30u64 {
        stops(rt, alloc, fill, calls);
    }
}

#[test]
fn each_stop_leaves_what_was_acknowledged(rt: HostRuntime) {
    stops_anywhere(&rt, rt.alloc(), b"");
    stops_anywhere(&rt, rt.alloc(), &[0]);
    stops_anywhere(&rt, rt.alloc(), &[1]);
    stops_anywhere(&rt, rt.alloc(), &[7]);
}

/// Where a journal that begins in a file ends, or why it does not, and whether the file is then as it was.
type Beginning = (Result<u64, JournalError>, bool);

/// Where a journal that begins on the disk ends.
fn end_of_begun(rt: &impl Abort, alloc: Global, disk: &mut MemDisk) -> Result<u64, JournalError> {
    attach(rt, disk);
    let tail = begin(alloc, disk, &head_of_text(rt, alloc, b"0 5\n"))?;
    Ok(tail.end)
}

/// How a journal begins in a file of these bytes.
fn begun_in(rt: &impl Abort, alloc: Global, bytes: &[u8]) -> Beginning {
    let file = bytes.to_vec(alloc).expect(rt, "memory");
    let mut disk = MemDisk::new(file, Vec::new(alloc));
    let end = end_of_begun(rt, alloc, &mut disk);
    (end, disk.bytes() == bytes)
}

/// What a file has, and what a journal does that begins there.
const BEGINNINGS: &[(&[u8], Beginning)] = &[
    (b"", (Ok(59), false)),
    (b"7", (Ok(59), false)),
    (b"\x007", (Ok(59), false)),
    (b"77", (Err(JournalError::Exists), true)),
    (b"\x01\x01", (Err(JournalError::Exists), true)),
];

/// A journal begins so in a file of these bytes.
fn begins(rt: &impl Abort, alloc: Global, bytes: &[u8], wanted: Beginning) {
    assert_eq!(rt; begun_in(rt, alloc, bytes), wanted, "in {bytes:?}");
}

#[test]
fn a_journal_begins_only_where_there_is_none(rt: HostRuntime) {
    for (bytes, wanted) in BEGINNINGS.iter().copied() {
        begins(&rt, rt.alloc(), bytes, wanted);
    }
}

/// Adds a record whose next gate would stand at the end of numbers.
fn add_at_the_end<D: Disk>(alloc: Global, disk: &mut D) -> Result<(), AppendError>
    requires attached { IsTrue (D.attached disk.old) }
    requires silent { D.tells disk.old ≡ false }
    ensures { IsTrue (D.attached disk.new) }
{
    let digest = [0; 32];
    let mut tail = Tail {
        end: u64::MAX - 50,
        digest,
        version: 2,
        since: 0,
    };
    append(alloc, disk, &mut tail, &finish(alloc, 0))
}

/// There is no room for such a record, and the file stays empty.
fn keeps_off_the_end<D: Disk>(rt: &impl Abort, alloc: Global, disk: &mut D)
    requires { D.tells disk.old ≡ false }
{
    disk.attach("j").expect(rt, "attached");
    let added = add_at_the_end(alloc, disk);
    assert_eq!(rt; (added, disk.len()), (Err(AppendError::OutOfMemory), Ok(0)));
}

#[test]
fn no_record_stands_at_the_end_of_numbers(rt: HostRuntime) {
    let mut disk = FileDisk::detached(&rt);
    keeps_off_the_end(&rt, rt.alloc(), &mut disk);
}

/// Whether a file is attached while another disk has it, and once that is gone.
fn attached_beside(rt: &HostRuntime, name: &str) -> (bool, bool, bool) {
    let mut first = FileDisk::detached(rt);
    let mut second = FileDisk::detached(rt);
    let alone = first.attach(name).is_ok();
    let beside = second.attach(name).is_ok();
    drop(first);
    (alone, beside, second.attach(name).is_ok())
}

#[test]
fn a_file_is_attached_by_one_disk_at_a_time(rt: HostRuntime) {
    assert_eq!(rt; attached_beside(&rt, "locked"), (true, false, true));
}
