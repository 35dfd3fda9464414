use crate::fake_runtime::{Done, FakeRuntime};
use emc_base::{Bin, Txt};
use emc_files::{DiskFiles, Files, ReadFault, ReplaceFault};
use std::alloc::Global;
use std::io::ErrorKind;

// The bytes of the file.
const OLD: &[u8] = &[0, 1, 2, 3];

// Those that are put in their place.
pub const NEW: &[u8] = &[7, 8];

// More calls than any test makes.
const ALL: u64 = 9;

/// Whether files answer so to a read of at most so many bytes.
pub fn reads<F: Files>(
    alloc: Global,
    files: &mut F,
    name: &str,
    limit: u64,
    wanted: Result<&[u8], ReadFault>,
) -> bool {
    let Ok(name) = Txt::of(alloc, name) else {
        return false;
    };
    match (files.read(alloc, &name, limit), wanted) {
        (Ok(bytes), Ok(wanted)) => bytes.as_slice() == wanted,
        (Err(fault), Err(wanted)) => fault == wanted,
        _ => false,
    }
}

#[test]
fn bytes_past_the_limit_are_told(rt: HostRuntime) {
    let sound = (ALL, ErrorKind::Other);
    let whole = Asked::Read("M.json", 4, Ok(OLD));
    assert!(rt; disk_answers(rt.alloc(), sound, whole, 0, 0));
    let larger = Asked::Read("M.json", 3, Err(ReadFault::TooLarge));
    assert!(rt; disk_answers(rt.alloc(), sound, larger, 0, 0));
}

// Nothing past the limit and one byte is read: a fault there isn't met.
#[test]
fn a_fault_past_the_limit_is_not_met(rt: HostRuntime) {
    let larger = Asked::Read("M.json", 3, Err(ReadFault::TooLarge));
    assert!(rt; disk_answers(rt.alloc(), (4, ErrorKind::Other), larger, 0, 0));
}

#[test]
fn a_missing_file_is_told(rt: HostRuntime) {
    let missing = Asked::Read("S.json", 4, Err(ReadFault::Missing));
    assert!(rt; disk_answers(rt.alloc(), (ALL, ErrorKind::Other), missing, 0, 0));
}

// In mid-stream: a read that is interrupted goes on.
#[test]
fn a_failing_read_is_told(rt: HostRuntime) {
    let whole = Asked::Read("M.json", 4, Ok(OLD));
    assert!(rt; disk_answers(rt.alloc(), (2, ErrorKind::Interrupted), whole, 0, 0));
    let failed = Asked::Read("M.json", 4, Err(ReadFault::Failed));
    assert!(rt; disk_answers(rt.alloc(), (2, ErrorKind::Other), failed, 1, 0));
    let memory = Asked::Read("M.json", 4, Err(ReadFault::Memory));
    assert!(rt; disk_answers(rt.alloc(), (2, ErrorKind::OutOfMemory), memory, 0, 0));
}

/// What files answer to a replace.
pub fn replace<F: Files>(alloc: Global, files: &mut F) -> Option<ReplaceFault> {
    let (Ok(name), Ok(new)) = (Txt::of(alloc, "M.json"), Bin::of(alloc, NEW)) else {
        return Some(ReplaceFault::Memory);
    };
    files.replace(alloc, &name, &new).err()
}

// What is asked of a disk, and what it is to answer.
#[derive(Clone, Copy)]
enum Asked<'w> {
    /// A read of this file, of at most so many bytes.
    Read(&'w str, u64, Result<&'w [u8], ReadFault>),
    /// A replace of the file.
    Replace(Option<ReplaceFault>),
}

// Whether files answer so.
fn answer<F: Files>(alloc: Global, files: &mut F, asked: Asked<'_>) -> bool {
    match asked {
        Asked::Read(name, limit, wanted) => reads(alloc, files, name, limit, wanted),
        Asked::Replace(wanted) => replace(alloc, files) == wanted,
    }
}

// Whether a disk whose calls fail after so many good ones, with this kind, answers so, counts so many faults, and was changed so.
fn disk_answers(
    alloc: Global,
    (good, kind): (u64, ErrorKind),
    asked: Asked<'_>,
    faults: u64,
    changes: u64,
) -> bool {
    let done = Done::nothing();
    let mut disk = DiskFiles::new(FakeRuntime {
        done: &done,
        good,
        kind,
    });
    answer(alloc, &mut disk, asked) && disk.faults() == faults && done.changes.get() == changes
}

#[test]
fn a_file_is_replaced_by_its_neighbour(rt: HostRuntime) {
    let replaced = Asked::Replace(None);
    assert!(rt; disk_answers(rt.alloc(), (ALL, ErrorKind::Other), replaced, 0, 1782));
}

// The second write fails, or the rename: the file is left, and the neighbour removed.
#[test]
fn a_file_is_left_by_a_replace_that_fails(rt: HostRuntime) {
    let failed = Asked::Replace(Some(ReplaceFault::Failed));
    assert!(rt; disk_answers(rt.alloc(), (1, ErrorKind::Other), failed, 1, 173));
    assert!(rt; disk_answers(rt.alloc(), (2, ErrorKind::Other), failed, 1, 1783));
    let memory = Asked::Replace(Some(ReplaceFault::Memory));
    assert!(rt; disk_answers(rt.alloc(), (2, ErrorKind::OutOfMemory), memory, 0, 1783));
}
