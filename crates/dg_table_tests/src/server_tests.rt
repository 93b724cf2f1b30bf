//! Runs of the program over sources of a user's own.

use crate::tables::TRIANGLE;
use dg_server::{SourceFault, Sources, Stream, run};
use std::rt::Files;
use std::test::Fail;

// A table and its steps, and three that can't be read.
#[derive(Clone, Copy)]
struct Shelf;

impl Sources for Shelf {
    ghost use Rattle.dg_system.specs.Held.{unknown};

    ghost held = { λ _ name. unknown };

    fn bytes<R: Files + AllocGlobal>(&self, rt: &R, name: &str) -> Result<Vec<u8>, SourceFault> {
        let text = match name {
            "triangle" => TRIANGLE,
            "steps" => "1 lend a\n",
            "long" => return Err(SourceFault::TooLong),
            "large" => return Err(SourceFault::OutOfMemory),
            _ => return Err(SourceFault::Unreadable),
        };
        Vec::from_slice(rt.alloc(), text.as_bytes()).map_err(|_| SourceFault::OutOfMemory)
    }

    // Sweeps alone read so.
    fn open<'s, R: Files>(
        &'s self,
        _rt: &R,
        _name: &str,
    ) -> Result<Stream<'s, R::File>, SourceFault> {
        Err(SourceFault::Unreadable)
    }
}

// The words after the program's name, what is written, what is said of a fault, and the status.
static RUNS: [(&[&str], &str, &str, u8); 4] = [
    (
        &["rehearse", "triangle", "steps"],
        "0 moved a=0 b=0 c=0\n",
        "",
        0,
    ),
    (&["judge", "long"], "", "dollar: file too long\n", 3),
    (
        &["rehearse", "triangle", "large"],
        "",
        "dollar: out of memory\n",
        4,
    ),
    (&["judge", "none"], "", "dollar: read fault\n", 5),
];

#[test]
fn what_runs_come_to(rt: HostRuntime) -> Result<(), Fail> {
    for (given, said, told, status) in &RUNS {
        let mut words = Vec::new(rt.alloc());
        words.push(String::from_str(rt.alloc(), "dollar")?)?;
        for word in *given {
            words.push(String::from_str(rt.alloc(), word)?)?;
        }
        let (mut output, mut faults) = (Vec::new(rt.alloc()), Vec::new(rt.alloc()));
        let input = b"".as_slice();
        let ended = run(&rt, &words, &Shelf, input, &mut output, &mut faults);
        assert!(rt; ended == *status, "{told}");
        assert!(rt; output.as_slice() == said.as_bytes() && faults.as_slice() == told.as_bytes());
    }
    Ok(())
}
