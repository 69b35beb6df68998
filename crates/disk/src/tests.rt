use super::{Disk, DiskFailed, FileDisk, MemDisk};
use std::test::Fail;

/// Writes `ab`, syncs it, and writes `cde` over its end.
fn write_twice<D: Disk>(disk: &mut D) -> Result<(), DiskFailed> {
    disk.attach("j")?;
    if disk.len()? == 0 {
        disk.write_at(0, b"ab")?;
        disk.sync()?;
        if disk.len()? == 2 {
            disk.write_at(1, b"cde")?;
        }
    }
    Ok(())
}

#[test]
fn a_crash_leaves_what_was_synced_and_any_bytes_after(rt: HostRuntime) -> Result<(), Fail> {
    let alloc = rt.alloc();
    for (fill, calls, seen, image) in [
        (b"".as_slice(), 9, b"acde".as_slice(), b"ab".as_slice()),
        (b"xyz", 9, b"acde", b"ayzx"),
        (b"", 5, b"ab", b"ab"),
        (b"xyz", 5, b"ab", b"ayzx"),
        (b"", 3, b"ab", b""),
        (b"xyz", 3, b"ab", b"xy"),
        (b"xyz", 2, b"", b"xy"),
        (b"xyz", 1, b"", b""),
    ] {
        let mut disk = MemDisk::fused(Vec::new(alloc), calls);
        assert_eq!(rt; write_twice(&mut disk).is_ok(), calls == 9, "after {calls}");
        assert_eq!(rt; disk.bytes(), seen, "after {calls}");
        assert_eq!(rt; disk.faults(), u64::from(calls < 9), "after {calls}");
        let crashed = disk.crash(fill)?;
        assert_eq!(rt; crashed.bytes(), image, "after {calls}");
        assert_eq!(rt; crashed.faults(), 0);
    }
    Ok(())
}

#[test]
fn the_listed_calls_fail(rt: HostRuntime) -> Result<(), Fail> {
    let alloc = rt.alloc();
    for call in 0..8u64 {
        let mut disk = MemDisk::new(Vec::new(alloc), [call].to_vec(alloc)?);
        assert_eq!(rt; write_twice(&mut disk).is_ok(), call > 5, "at {call}");
        assert_eq!(rt; disk.faults(), u64::from(call <= 5), "at {call}");
    }
    Ok(())
}

#[test]
fn a_real_file_is_written_and_read(rt: HostRuntime) -> Result<(), Fail> {
    let mut disk = FileDisk::detached(&rt);
    assert_eq!(rt; write_twice(&mut disk), Ok(()));
    let mut other = FileDisk::detached(&rt);
    assert_eq!(rt; other.attach("j"), Err(DiskFailed), "while another has it");
    drop(other);
    drop(disk);
    let mut again = FileDisk::detached(&rt);
    let Ok(()) = again.attach("j") else {
        assert!(rt; false);
        return Ok(());
    };
    assert_eq!(rt; again.len(), Ok(4));
    let mut read = [0; 3];
    assert_eq!(rt; again.read_at(1, &mut read), Ok(()));
    assert_eq!(rt; read, *b"cde");
    assert_eq!(rt; again.read_at(2, &mut read), Err(DiskFailed));
    assert_eq!(rt; again.sync(), Ok(()));
    assert_eq!(rt; again.faults(), 1);
    assert_eq!(rt; again.attach("no/such/folder"), Err(DiskFailed));
    assert_eq!(rt; again.faults(), 2);
    Ok(())
}
