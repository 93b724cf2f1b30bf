//! Table files: the start of a game, and the names of its vertices.
ghost use Rattle.std.specs.Prelude.{◌≡◌, [], length, map, IfOk, IfErr, OnOk};
ghost use Rattle.dg_graph.specs.Faults.{IsSize};
ghost use Rattle.dg_tokens.specs.Names.{AreNames};
ghost use Rattle.dg_file.specs.TableFiles.{ContentDescribes, IsTableFile, vertex_or_size, edge_items};
ghost use Rattle.dg_file.specs.FileFaults.{IsContentFault, IsFileFault};
ghost use Rattle.dg_file.specs.Reading.{IsNamesFault, RefusesContent, RefusesJsonValue};
ghost use Rattle.dg_file.specs.Content.{Content, IsContent};
ghost use Rattle.serde_json.specs.View.{view};

use crate::fault::FileFault;
use crate::shape::{Content, content_from_json, value_from_json};
use dg_chips::{Divisor, Start};
use dg_graph::{Graph, GraphFault, MAX_VERTICES};
use dg_tokens::{Names, is_name};
use serde_json::Value;
use std::alloc::{AllocError, Global};

/// What a table file describes: the start of a game, and a name for each vertex of its graph.
#[derive(Drop)]
pub struct TableFile {
    start: Start,
    names: Names,
    ghost named: { length names ≡ start.graph.size },
}

impl TableFile {
    /// The start of the game.
    pub fn start(&self) -> &Start
        ensures { result.now ≡ self.now.start }
    {
        &self.start
    }

    /// The names of the vertices, one for each vertex of the start's graph.
    pub fn names(&self) -> &Names
        ensures value { result.now ≡ self.now.names }
        ensures named { length result.now ≡ self.now.start.graph.size }
    {
        &self.names
    }
}

/// The table that a file's bytes describe.
///
/// Refused with the first of these that applies: `Json`; `Shape`, in the order of its variants, the edges from 0 on;
/// `Graph(Size)`; `Name` or `Twice`, from vertex 0 on; the other faults of `Graph`, if an edge's name that no vertex
/// has is `NoVertex`; `Chip`; `NoQ`. `OutOfMemory` means that a growth was refused, and says nothing of the bytes.
pub fn read_table(alloc: Global, bytes: &[u8]) -> Result<TableFile, FileFault>
    ensures table { IfOk result (λ table. IsTableFile bytes.now table.start table.names) }
    ensures refused { IfErr result (IsFileFault bytes.now) }
{
    let value = value_from_json(alloc, bytes)?.ok_or(FileFault::Json)?;
    table_from_json(alloc, &value)
}

/// The table that a value of JSON describes.
fn table_from_json(alloc: Global, value: &Value) -> Result<TableFile, FileFault>
    ensures table { IfOk result (λ table. (content : Content) × IsContent (view value.now) content
        × ContentDescribes content table.start table.names) }
    ensures refused { IfErr result (RefusesJsonValue (view value.now)) }
{
    let content = content_from_json(alloc, value)?;
    table_of_content(alloc, &content)
}

/// The table of what a table file says.
fn table_of_content(alloc: Global, content: &Content<'_>) -> Result<TableFile, FileFault>
    ensures table { IfOk result (λ table. ContentDescribes content.now table.start table.names) }
    ensures refused { IfErr result (RefusesContent content.now) }
{
    let names = names_from_texts(alloc, content.vertices.as_slice())?;
    let items = edge_items(alloc, content, &names)?;
    let start = start_of_content(content, &names, items.as_slice())?;
    Ok(TableFile { start, names })
}

/// The texts as names, from the first on.
fn names_from_texts(alloc: Global, vertices: &[&str]) -> Result<Names, FileFault>
    ensures names { IfOk result (λ names. names ≡ map (λ vertex. vertex.now) vertices.now) }
    ensures are_names { IfOk result AreNames }
    ensures refused { IfErr result (IsNamesFault (map (λ vertex. vertex.now) vertices.now)) }
{
    if vertices.is_empty() || vertices.len() > MAX_VERTICES {
        return Err(FileFault::Graph(GraphFault::Size));
    }
    let mut names = Names::new(alloc);
    add_names(alloc, vertices, &mut names)?;
    Ok(names)
}

/// Puts the texts, whose number is within the limits, into names of which there are none yet.
fn add_names(alloc: Global, vertices: &[&str], names: &mut Names) -> Result<(), FileFault>
    requires size { IsSize (length vertices.now) }
    requires empty { names.old ≡ [] }
    ensures names { OnOk result (names.new ≡ map (λ vertex. vertex.now) vertices.now) }
    ensures are_names { OnOk result (AreNames names.new) }
    ensures refused { IfErr result (IsNamesFault (map (λ vertex. vertex.now) vertices.now)) }
{
    for (v, vertex) in vertices.iter().enumerate() {
        if !is_name(vertex.as_bytes()) {
            return Err(FileFault::Name(v));
        }
        if !names.insert(alloc, vertex)? {
            return Err(FileFault::Twice(v));
        }
    }
    Ok(())
}

/// The edges as items of a graph.
fn edge_items(
    alloc: Global,
    content: &Content<'_>,
    names: &Names,
) -> Result<Vec<(u8, u8, u8)>, AllocError>
    requires { names.now ≡ content.now.vertices }
    ensures { IfOk result (λ items. items.items ≡ edge_items content.now) }
{
    let mut items = Vec::with_capacity(alloc, content.edges.len())?;
    for edge in &content.edges {
        let one = vertex_or_size(names, edge.one);
        let other = vertex_or_size(names, edge.other);
        items.push((one, other, edge.count))?;
    }
    Ok(items)
}

/// The start on the graph of the items.
fn start_of_content(
    content: &Content<'_>,
    names: &Names,
    items: &[(u8, u8, u8)],
) -> Result<Start, FileFault>
    requires given { names.now ≡ content.now.vertices }
    requires are_names { AreNames names.now }
    requires items { items.now ≡ edge_items content.now }
    ensures table { IfOk result (λ start. ContentDescribes content.now start names.now) }
    ensures refused { IfErr result (IsContentFault content.now) }
{
    let graph = Graph::new(names.len(), items)?;
    let divisor = Divisor::new(&graph, content.amounts.as_slice())?;
    let q = names.place(content.q.as_bytes()).ok_or(FileFault::NoQ)?;
    match Start::new(graph, divisor, q) {
        Ok(start) => Ok(start),
        Err(_) => unreachable!(),
    }
}

/// The vertex of that name, or the number of vertices, which is none of them.
fn vertex_or_size(names: &Names, name: &str) -> u8
    ensures { result ≡ vertex_or_size names.now name.now }
{
    names.place(name.as_bytes()).unwrap_or(names.len() as u8)
}
