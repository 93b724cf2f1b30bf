//! What comes of a call.

use dg_table::Fault;
use std::test::Fail;

// What came of a call.
#[derive(Clone, Copy, PartialEq, Eq)]
pub(crate) enum Outcome {
    // The answer that comes if there is memory.
    Done,
    // Want of memory.
    Memory,
    // A thread that was not started.
    Thread,
    // Any other answer.
    Wrong,
}

// What came of a call that answered so.
pub(crate) fn done_if(is_right: bool) -> Outcome {
    if is_right {
        Outcome::Done
    } else {
        Outcome::Wrong
    }
}

// What came of a call that a table refused so.
pub(crate) fn refused(fault: Fault) -> Outcome {
    match fault {
        Fault::OutOfMemory => Outcome::Memory,
        Fault::Full | Fault::Log => Outcome::Wrong,
    }
}

// Says in one line what came of a call. A wrong answer is a failure.
pub(crate) fn tell(rt: &impl Print, call: &str, outcome: Outcome) -> Result<(), Fail> {
    let said = match outcome {
        Outcome::Done => "done",
        Outcome::Memory => "out of memory",
        Outcome::Thread => "no thread",
        Outcome::Wrong => "another answer",
    };
    println!(rt; "{call}: {said}")?;
    if outcome == Outcome::Wrong {
        return Err(Fail::from("another answer"));
    }
    Ok(())
}

// Says in one line that a call was answered, and that it takes no memory.
pub(crate) fn tell_spared(rt: &impl Print, call: &str) -> Result<(), Fail> {
    println!(rt; "{call}: done without memory")?;
    Ok(())
}
