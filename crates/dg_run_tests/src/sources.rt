//! Files that fail as they are read.

use crate::session::streams::Flow;
use dg_system::{SourceFault, read_within};
use std::io::ErrorKind;
use std::test::Fail;

#[test]
fn a_read_that_fails_is_a_fault(rt: HostRuntime) -> Result<(), Fail> {
    let alloc = rt.alloc();
    for (size, kind, fault) in [
        (0, ErrorKind::IsADirectory, SourceFault::Unreadable),
        (1_048_576, ErrorKind::Other, SourceFault::Unreadable),
        (1_048_577, ErrorKind::Other, SourceFault::TooLong),
        (9, ErrorKind::OutOfMemory, SourceFault::OutOfMemory),
    ] {
        let bytes = vec![in alloc; b'x'; size]?;
        let torn = Flow {
            text: &bytes,
            most: 2_000_000,
            fault: Some(kind),
            is_interrupted: false,
            is_held_back: None,
        };
        assert!(rt; read_within(alloc, torn).err() == Some(fault), "{size}");
    }
    Ok(())
}
