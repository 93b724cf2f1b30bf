//! What is said of bytes that are refused as a table.
ghost use Rattle.std.specs.Prelude.{◌≡◌, ◌++◌, decimal, OnOk};
ghost use Rattle.dg_sweep.specs.FaultTexts.{fault_words_text, file_fault_words, shape_fault_words, graph_fault_words, chip_fault_words};

use dg_chips::ChipFault;
use dg_file::{FileFault, Shape};
use dg_graph::GraphFault;
use itoa::Buffer;
use std::alloc::AllocError;

/// What is said of a fault: words, words with a number after them, or words with a number between them.
enum FaultWords {
    Alone(&'static str),
    Before(&'static str, usize),
    Around(&'static str, usize, &'static str),
}

/// What is said of a fault, after the text.
pub(crate) fn push_fault(text: &mut Vec<u8>, fault: &FileFault) -> Result<(), AllocError>
    ensures { OnOk result (text.new.items ≡ text.old.items ++ file_fault_words fault.now) }
{
    match words_of_fault(fault) {
        FaultWords::Alone(words) => text.extend_from_slice(words.as_bytes()),
        FaultWords::Before(label, number) => push_words_and_number(text, label, number),
        FaultWords::Around(label, number, words) => {
            push_words_and_number(text, label, number)?;
            text.extend_from_slice(words.as_bytes())
        }
    }
}

fn words_of_fault(fault: &FileFault) -> FaultWords
    ensures { fault_words_text result ≡ file_fault_words fault.now }
{
    match fault {
        FileFault::Json => FaultWords::Alone("not JSON"),
        FileFault::Shape(shape) => words_of_shape_fault(*shape),
        FileFault::Graph(fault) => words_of_graph_fault(*fault),
        FileFault::Name(v) => FaultWords::Before("name of vertex ", *v),
        FileFault::Twice(v) => FaultWords::Around("vertex ", *v, " named twice"),
        FileFault::Chip(fault) => words_of_chip_fault(*fault),
        FileFault::NoQ => FaultWords::Alone("no vertex q"),
        FileFault::OutOfMemory => FaultWords::Alone("out of memory"),
    }
}

fn words_of_shape_fault(shape: Shape) -> FaultWords
    ensures { fault_words_text result ≡ shape_fault_words shape }
{
    match shape {
        Shape::Top => FaultWords::Alone("shape of top"),
        Shape::Vertices => FaultWords::Alone("shape of vertices"),
        Shape::Edges => FaultWords::Alone("shape of edges"),
        Shape::Edge(i) => FaultWords::Before("shape of edge ", i),
        Shape::Amounts => FaultWords::Alone("shape of amounts"),
        Shape::Q => FaultWords::Alone("shape of q"),
    }
}

fn words_of_graph_fault(fault: GraphFault) -> FaultWords
    ensures { fault_words_text result ≡ graph_fault_words fault }
{
    match fault {
        GraphFault::Size => FaultWords::Alone("number of vertices"),
        GraphFault::NoVertex(i) => FaultWords::Around("edge ", i, " has no vertex"),
        GraphFault::Loop(i) => FaultWords::Around("edge ", i, " is a loop"),
        GraphFault::Multiplicity(i) => FaultWords::Around("edge ", i, " is empty"),
        GraphFault::Valence(v) => FaultWords::Before("valence of vertex ", v),
        GraphFault::NotConnected => FaultWords::Alone("not connected"),
    }
}

fn words_of_chip_fault(fault: ChipFault) -> FaultWords
    ensures { fault_words_text result ≡ chip_fault_words fault }
{
    match fault {
        ChipFault::Length => FaultWords::Alone("number of amounts"),
        ChipFault::Range(v) => FaultWords::Before("amount of vertex ", v),
    }
}

/// Words and a number, after the text.
fn push_words_and_number(text: &mut Vec<u8>, label: &str, number: usize) -> Result<(), AllocError>
    ensures { OnOk result (text.new.items ≡ text.old.items ++ (label.now ++ decimal number)) }
{
    text.extend_from_slice(label.as_bytes())?;
    text.extend_from_slice(Buffer::new().format(number).as_bytes())
}
