//! Laws over what lines spell, each the contract of a function that no call needs.
ghost use Rattle.dg_lines.specs.LineLaws.{HasMeaning, HasStepMeaning, LineMeaningIsUnique, StepMeaningIsUnique, NumeralsAreDecimals};

use crate::line::{parse_line, parse_step};
use dg_tokens::Names;

/// Each line spells a command or has a fault, and not both; it spells no two commands and has no two faults.
pub fn line_meaning_is_unique(line: &[u8], names: &Names)
    ensures some { HasMeaning names.now line.now }
    ensures one { LineMeaningIsUnique }
{
    match parse_line(line, names) {
        Ok(_) | Err(_) => {}
    }
}

/// Each line spells a step or has a fault, and not both; it spells no two steps and has no two faults.
pub fn step_meaning_is_unique(line: &[u8], names: &Names)
    ensures some { HasStepMeaning names.now line.now }
    ensures one { StepMeaningIsUnique }
{
    match parse_step(line, names) {
        Ok(_) | Err(_) => {}
    }
}

/// A text of at most 64 bytes is the decimal of a whole number exactly if it is `0`, or a digit from 1 to 9 and further
/// digits, with or without a `-` before them; and no text is that of two numbers below 10^64, with either sign.
pub fn numerals_are_decimals()
    ensures { NumeralsAreDecimals }
{}
