//! Files of steps: a step on each line.
ghost use Rattle.std.specs.Prelude.{IfOk, IfErr};
ghost use Rattle.dg_lines.specs.Cuts.{lines};
ghost use Rattle.dg_lines.specs.Schedules.{AreStepsOf, StepsHaveSeats, IsStepsFault};

use crate::line::{LineFault, parse_step};
use crate::lines::Lines;
use dg_rules::Step;
use dg_tokens::Names;
use std::alloc::Allocator;
use thiserror::Error;

/// Why a schedule is refused.
#[derive(Clone, Copy, Debug, PartialEq, Eq, Error)]
pub enum StepsFault {
    /// The line, counted from 1, is refused.
    #[error("line {line}: {fault}")]
    Line {
        /// The line, counted from 1.
        line: usize,
        /// Why it is refused.
        fault: LineFault,
    },
    /// Memory was refused.
    #[error("out of memory")]
    OutOfMemory,
}

/// The steps that the lines of the bytes spell, in their order.
///
/// Refused with `Line` at the first line that is refused, or with `OutOfMemory` if memory is refused before it.
pub fn parse_steps<A: Allocator + Drop>(
    alloc: A,
    bytes: &[u8],
    names: &Names,
) -> Result<Vec<Step, A>, StepsFault>
    ensures steps { IfOk result (λ steps. AreStepsOf names.now steps.items (lines bytes.now)) }
    ensures seated { IfOk result (λ steps. StepsHaveSeats steps.items) }
    ensures refused { IfErr result (IsStepsFault names.now (lines bytes.now)) }
{
    let mut steps = Vec::new(alloc);
    'lines: for line in Lines::new(bytes) {
        match parse_step(line, names) {
            Ok(step) => match steps.push(step) {
                Ok(()) => {}
                Err(_) => return Err(StepsFault::OutOfMemory),
            },
            Err(fault) => {
                let line = steps.len() + 1;
                return Err(StepsFault::Line { line, fault });
            }
        }
    }
    Ok(steps)
}
