//! Table files.

use crate::tables::{TRIANGLE, triangle};
use dg_chips::ChipFault;
use dg_file::{FileFault, Names, Shape, TableFile, read_table};
use dg_graph::GraphFault;
use std::test::Fail;

#[test]
fn what_a_file_has(rt: HostRuntime) -> Result<(), Fail> {
    let file: TableFile = read_table(rt.alloc(), TRIANGLE.as_bytes())?;
    assert!(rt; *file.start() == triangle(&[2, -1, -1])?);
    let names: &Names = file.names();
    assert!(rt; names.len() == 3 && names.place(b"z").is_none());
    let place = names.place(b"c").ok_or("a vertex")?;
    assert!(rt; place == 2 && names.name(place) == "c");
    Ok(())
}

// Texts, and why they are no table.
static NO_TABLES: [(&str, FileFault); 20] = [
    (r#"{"vertices":["a"]"#, FileFault::Json),
    ("[]", FileFault::Shape(Shape::Top)),
    (
        r#"{"vertices":[0],"edges":[],"amounts":[0],"q":"a"}"#,
        FileFault::Shape(Shape::Vertices),
    ),
    (
        r#"{"vertices":["a"],"edges":0,"amounts":[0],"q":"a"}"#,
        FileFault::Shape(Shape::Edges),
    ),
    (
        r#"{"vertices":["a"],"edges":[["a","a",0],["a","a"]],"amounts":[0],"q":"a"}"#,
        FileFault::Shape(Shape::Edge(1)),
    ),
    (
        r#"{"vertices":["a"],"edges":[],"amounts":[1.5],"q":"a"}"#,
        FileFault::Shape(Shape::Amounts),
    ),
    (
        r#"{"vertices":["a"],"edges":[],"amounts":[0],"q":0}"#,
        FileFault::Shape(Shape::Q),
    ),
    (
        r#"{"vertices":[],"edges":[],"amounts":[],"q":"a"}"#,
        FileFault::Graph(GraphFault::Size),
    ),
    (
        r#"{"vertices":["a b"],"edges":[],"amounts":[0],"q":"a b"}"#,
        FileFault::Name(0),
    ),
    (
        r#"{"vertices":["a","a"],"edges":[],"amounts":[0,0],"q":"a"}"#,
        FileFault::Twice(1),
    ),
    (
        r#"{"vertices":["a","b"],"edges":[["a","z",1]],"amounts":[0,0],"q":"a"}"#,
        FileFault::Graph(GraphFault::NoVertex(0)),
    ),
    (
        r#"{"vertices":["a","b"],"edges":[["a","a",1]],"amounts":[0,0],"q":"a"}"#,
        FileFault::Graph(GraphFault::Loop(0)),
    ),
    (
        r#"{"vertices":["a","b"],"edges":[["a","b",0]],"amounts":[0,0],"q":"a"}"#,
        FileFault::Graph(GraphFault::Multiplicity(0)),
    ),
    (
        r#"{"vertices":["a","b"],"edges":[["a","b",64]],"amounts":[0,0],"q":"a"}"#,
        FileFault::Graph(GraphFault::Valence(0)),
    ),
    (
        r#"{"vertices":["a","b"],"edges":[],"amounts":[0,0],"q":"a"}"#,
        FileFault::Graph(GraphFault::NotConnected),
    ),
    (
        r#"{"vertices":["a"],"edges":[],"amounts":[0,0],"q":"a"}"#,
        FileFault::Chip(ChipFault::Length),
    ),
    (
        r#"{"vertices":["a"],"edges":[],"amounts":[1000001],"q":"a"}"#,
        FileFault::Chip(ChipFault::Range(0)),
    ),
    (
        r#"{"vertices":["a"],"edges":[],"amounts":[0],"q":"b"}"#,
        FileFault::NoQ,
    ),
    (
        r#"{"vertices":["a"],"edges":[],"amounts":[0],"q":"a","p":0}"#,
        FileFault::Shape(Shape::Top),
    ),
    (
        r#"{"vertices":["a"],"edges":[],"amounts":[0,0],"q":"b"}"#,
        FileFault::Chip(ChipFault::Length),
    ),
];

#[test]
fn what_is_no_table(rt: HostRuntime) {
    for (text, fault) in &NO_TABLES {
        let read = read_table(rt.alloc(), text.as_bytes());
        assert!(rt; read.err() == Some(*fault), "{text}");
    }
}
