//! The program `dollar`: plays the dollar game on a graph. `dollar --help` says how it is called.
#![tactic(auto)]

use dg_cli::words_of;
use dg_run::{Fault, report, run_streams};
use dg_system::{DiskFiles, Input, Output};
use std::process::ExitCode;

fn main(rt: HostRuntime) -> ExitCode {
    let mut input = Input::new(rt.reader());
    let mut output = Output::new(rt.stdout());
    let mut faults = rt.stderr();
    let status = match words_of(&rt) {
        Ok(words) => run_streams(
            &rt,
            words.as_slice(),
            &DiskFiles,
            &mut input,
            &mut output,
            &mut faults,
        ),
        Err(fault) => report(&Fault::Words(fault), &mut faults),
    };
    ExitCode::from(status)
}
