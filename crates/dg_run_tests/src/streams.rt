//! An output that fails.

use dg_invocation::{Invocation, Task};
use dg_run::{Fault, perform};
use dg_system::{Input, MemoryFiles, Output};
use std::process::Abort;
use std::rt::Files;
use std::sync::Wait;
use std::thread::Threads;

// One vertex, in debt.
const ALONE: &str = r#"{"vertices":["a"],"edges":[],"amounts":[-1],"q":"a"}"#;

// The answer has 26 bytes.
#[test]
fn an_output_that_is_refused_is_a_fault(rt: HostRuntime) {
    for size in [0, 5, 25, 26] {
        has_room(&rt, size);
    }
}

// Whether the answer is printed if there is room for 26 bytes, and a fault of writing comes if there is less.
fn has_room<R>(rt: &R, size: usize)
where
    R: Files + AllocGlobal + Threads + Wait + Abort + Sync,
{
    let shelf = MemoryFiles {
        files: &[("table.json", ALONE.as_bytes())],
    };
    let asked = Invocation::Task(Task::Judge {
        file: "table.json",
        ordered: false,
    });
    let mut page = [0; 26];
    assert!(rt; size <= 26);
    let mut output = Output::new(&mut page[..size]);
    let mut input = Input::new(b"".as_slice());
    let got = perform(rt, asked, &shelf, &mut input, &mut output);
    assert!(rt; matches!(&got, Ok(())) == (size == 26));
    assert!(rt; matches!(&got, Err(Fault::Write)) == (size != 26));
}
