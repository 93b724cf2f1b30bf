//! Sweeps over lines: what stands in no clause, that they end well, and laws before limits on tables computed by hand.

use dg_invocation::{Form, Question, VerdictForm};
use dg_sweep::{LineKind, SweepEnd, sweep};
use dg_system::{Input, Output};
use std::alloc::Global;
use std::io;
use std::io::{ErrorKind, Read};
use std::process::Abort;
use std::sync::Wait;
use std::test::Fail;
use std::thread::Threads;

// The triangle twice, once as the last line; the beginning of a file; an empty line; and a triangle whose q is no vertex.
const LINES: &str =
    r#"{"vertices":["a","b","c"],"edges":[["a","b",1],["b","c",1],["a","c",1]],"amounts":[2,-1,-1],"q":"a"}
{"vertices":["a"]

{"vertices":["a","b","c"],"edges":[["a","b",1],["b","c",1],["a","c",1]],"amounts":[2,-1,-1],"q":"d"}
{"vertices":["a","b","c"],"edges":[["a","b",1],["b","c",1],["a","c",1]],"amounts":[2,-1,-1],"q":"a"}"#;

const JUDGED: &str =
    "winnable by a=0 b=-1 c=-1 to a=0 b=0 c=0\nrefused not JSON\nrefused not JSON\nrefused no vertex q\nwinnable by a=0 b=-1 c=-1 to a=0 b=0 c=0\n";

const TESTED: &str =
    "rank below 1 at a=0 b=0 c=1\nrefused not JSON\nrefused not JSON\nrefused no vertex q\nrank below 1 at a=0 b=0 c=1\n";

const NUMBERED: &str =
    "degree 0 genus 1 rank 0 dual 0\nrefused not JSON\nrefused not JSON\nrefused no vertex q\ndegree 0 genus 1 rank 0 dual 0\n";

// A path of ten vertices with 20 dollars, and with 11; and a ring of 16 with 31 edges between two neighbours, where each vertex
// holds 30 dollars, half of what the canonical divisor has there. On a tree the rank is the degree. There are 293,930 ways to
// lose 12 dollars at ten vertices, and 490,314 to lose 8 at sixteen.
const LARGE: &str =
    r#"{"vertices":["a","b","c","d","e","f","g","h","i","j"],"edges":[["a","b",1],["b","c",1],["c","d",1],["d","e",1],["e","f",1],["f","g",1],["g","h",1],["h","i",1],["i","j",1]],"amounts":[20,0,0,0,0,0,0,0,0,0],"q":"a"}
{"vertices":["a","b","c","d","e","f","g","h","i","j"],"edges":[["a","b",1],["b","c",1],["c","d",1],["d","e",1],["e","f",1],["f","g",1],["g","h",1],["h","i",1],["i","j",1]],"amounts":[11,0,0,0,0,0,0,0,0,0],"q":"a"}
{"vertices":["a","b","c","d","e","f","g","h","i","j","k","l","m","n","o","p"],"edges":[["a","b",31],["b","c",31],["c","d",31],["d","e",31],["e","f",31],["f","g",31],["g","h",31],["h","i",31],["i","j",31],["j","k",31],["k","l",31],["l","m",31],["m","n",31],["n","o",31],["o","p",31],["p","a",31]],"amounts":[30,30,30,30,30,30,30,30,30,30,30,30,30,30,30,30],"q":"a"}
"#;

// Gives the text, so many bytes a read at most; then it ends, or fails.
#[derive(Drop)]
struct Flow<'a> {
    text: &'a [u8],
    most: usize,
    fails: bool,
}

impl<'a> Read for Flow<'a> {
    fn read(&mut self, buffer: &mut [u8]) -> io::Result<usize> {
        if self.text.is_empty() && self.fails {
            return Err(io::Error::from(ErrorKind::Other));
        }
        let size = buffer.len().min(self.most).min(self.text.len());
        let (given, left) = self.text.split_at(size);
        buffer[..size].copy_from_slice(given);
        self.text = left;
        Ok(size)
    }
}

// Questions about texts, and what is answered.
static ANSWERS: [(Question, &str, &str); 7] = [
    (
        Question::Judge(VerdictForm::Words { ordered: false }),
        LINES,
        JUDGED,
    ),
    (Question::Rank(1, Form::Words), LINES, TESTED),
    (Question::RiemannRoch(Form::Words), LINES, NUMBERED),
    (
        Question::Rank(12, Form::Words),
        LARGE,
        "rank at least 12\nrank below 12 at ?\nrank at least 12\n",
    ),
    (
        Question::RiemannRoch(Form::Words),
        LARGE,
        "degree 20 genus 0 rank 20 dual -1\ndegree 11 genus 0 rank 11 dual -1\ndegree 480 genus 481 rank 30 dual 30\n",
    ),
    (
        Question::Judge(VerdictForm::Words { ordered: false }),
        "",
        "",
    ),
    (
        Question::Judge(VerdictForm::Words { ordered: false }),
        "\n",
        "refused not JSON\n",
    ),
];

#[test]
fn lines_are_answered_however_they_come(rt: HostRuntime) -> Result<(), Fail> {
    for (question, text, answers) in &ANSWERS {
        is_answered_in_any_parts(
            &rt,
            rt.alloc(),
            *question,
            text.as_bytes(),
            answers.as_bytes(),
        );
    }
    Ok(())
}

// That the text is answered so where it comes seven bytes at a time, and where it comes at once.
fn is_answered_in_any_parts<R: Threads + Wait + Abort + Sync>(
    rt: &R,
    alloc: Global,
    question: Question,
    text: &[u8],
    answers: &[u8],
) {
    for most in [7, 2_000_000] {
        is_answered(rt, alloc, question, 1, text, most, answers);
    }
}

// That the text, which comes in parts of this size at most, is answered so by this many workers.
fn is_answered<R: Threads + Wait + Abort + Sync>(
    rt: &R,
    alloc: Global,
    question: Question,
    workers: u32,
    text: &[u8],
    most: usize,
    answers: &[u8],
) {
    let mut input = Input::new(Flow {
        text,
        most,
        fails: false,
    });
    let mut output = Output::new(Vec::new(alloc));
    let kind = LineKind::Tables(question);
    let end = sweep(rt, alloc, &kind, workers, &mut input, &mut output);
    assert!(rt; end.is_ok() && output.into_inner().as_slice() == answers);
}

#[test]
fn a_line_has_a_mebibyte_at_most(rt: HostRuntime) -> Result<(), Fail> {
    let most = vec![in rt.alloc(); b'x'; 1_048_576]?;
    is_answered_in_any_parts(
        &rt,
        rt.alloc(),
        Question::Judge(VerdictForm::Words { ordered: false }),
        &most,
        b"refused not JSON\n",
    );
    let long = vec![in rt.alloc(); b'x'; 1_048_577]?;
    is_answered_in_any_parts(
        &rt,
        rt.alloc(),
        Question::Judge(VerdictForm::Words { ordered: false }),
        &long,
        b"refused file too long\n",
    );
    Ok(())
}

#[test]
fn a_stream_may_fail(rt: HostRuntime) -> Result<(), Fail> {
    let mut input = Input::new(Flow {
        text: LINES.as_bytes(),
        most: 7,
        fails: true,
    });
    let mut output = Output::new(Vec::new(rt.alloc()));
    let end = sweep(
        &rt,
        rt.alloc(),
        &LineKind::Tables(Question::Judge(VerdictForm::Words { ordered: false })),
        1,
        &mut input,
        &mut output,
    );
    assert!(rt; end == Err(SweepEnd::Read));
    let said = output.into_inner();
    assert!(rt; JUDGED.as_bytes().starts_with(&said) && said.ends_with(b"no vertex q\n"));
    Ok(())
}

// Lines that differ from one part of the text to the next, so that parts in another order give other answers.
fn many_lines(alloc: Global) -> Result<(Vec<u8>, Vec<u8>), Fail> {
    let mut text = Vec::new(alloc);
    let mut answers = Vec::new(alloc);
    for count in 1..20 {
        for _ in 0..count {
            text.extend_from_slice(b"[]\n")?;
            answers.extend_from_slice(b"refused shape of top\n")?;
        }
        text.extend_from_slice(LINES.as_bytes())?;
        text.push(b'\n')?;
        answers.extend_from_slice(JUDGED.as_bytes())?;
    }
    Ok((text, answers))
}

#[test]
fn any_number_of_workers_answers_as_one(rt: HostRuntime) -> Result<(), Fail> {
    let (text, answers) = many_lines(rt.alloc())?;
    for workers in [1, 2, 3, 4, 16] {
        for most in [1_000, 3_001, 2_000_000] {
            is_answered(
                &rt,
                rt.alloc(),
                Question::Judge(VerdictForm::Words { ordered: false }),
                workers,
                &text,
                most,
                &answers,
            );
        }
    }
    Ok(())
}
