use crate::disks::{NEW, reads, replace};
use emc_base::Seq;
use emc_files::MemFiles;

#[test]
fn a_file_in_memory_is_replaced_and_read(rt: HostRuntime) {
    let mut files = MemFiles::new(rt.alloc(), Seq::empty(rt.alloc()));
    assert!(rt; replace(rt.alloc(), &mut files).is_none());
    assert!(rt; reads(rt.alloc(), &mut files, "M.json", 2, Ok(NEW)));
}
