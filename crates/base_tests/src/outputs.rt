use crate::fake_runtime::{Done, FakeRuntime};
use emc_files::{OutSink, Sink, SinkFault};
use std::io::ErrorKind;

// Whether an output that takes so many bytes answers so to nine that are put to it, counts so many faults, and took so many.
fn puts(good: u64, wanted: Option<SinkFault>, faults: u64, bytes: u64) -> bool {
    let done = Done::nothing();
    let mut sink = OutSink::new(FakeRuntime {
        done: &done,
        good,
        kind: ErrorKind::Other,
    });
    let told = sink.put(b"accepted\n").err();
    told == wanted && sink.faults() == faults && done.bytes.get() == bytes
}

#[test]
fn an_output_that_takes_nothing_more_is_a_fault(rt: HostRuntime) {
    assert!(rt; puts(1, Some(SinkFault::Failed), 1, 1));
    assert!(rt; puts(9, None, 0, 9));
}
