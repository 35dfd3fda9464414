use emc_base::{Seq, Txt};
use emc_files::{MemFiles, MemSink};
use mapping_run::{Status, run};
use std::test::Fail;

#[test]
fn a_file_that_is_missing_is_told(rt: HostRuntime) -> Result<(), Fail> {
    let mut words = Vec::new(rt.alloc());
    for word in ["check", "M", "S", "P"] {
        words.push(Txt::of(rt.alloc(), word)?)?;
    }
    let mut files = MemFiles::new(rt.alloc(), Seq::empty(rt.alloc()));
    let mut out = MemSink::new(rt.alloc(), Seq::empty(rt.alloc()));
    let status = run(rt.alloc(), words.as_slice(), &mut files, &mut out);
    assert_eq!(rt; status, Status::FileFault);
    assert_eq!(rt; out.written(), b"file missing \"M\"\n".as_slice());
    Ok(())
}

// The usage line, of which the output takes three bytes.
#[test]
fn an_output_that_fails_is_told(rt: HostRuntime) -> Result<(), Fail> {
    let failing = Seq::from_vec(vec![in rt.alloc(); (1u64, 3u64)]?)?;
    let mut files = MemFiles::new(rt.alloc(), Seq::empty(rt.alloc()));
    let mut out = MemSink::new(rt.alloc(), failing);
    let status = run(rt.alloc(), &[], &mut files, &mut out);
    assert_eq!(rt; status, Status::SinkFault);
    assert_eq!(rt; out.written(), b"usa".as_slice());
    Ok(())
}
