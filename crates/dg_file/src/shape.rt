//! The shape of a table file: the JSON value, its four members, and what they hold. It goes by the value, because no other reader
//! of the library has a clause that names what it read.
ghost use Rattle.std.specs.Prelude.{◌≡◌, ◌<◌, Some, IfOk, IfErr, MatchOption, map, option_map};
ghost use Rattle.serde_json.specs.Data.{array};
ghost use Rattle.serde_json.specs.View.{view, items_view};
ghost use Rattle.dg_file.specs.Content.{MemberValues, HasMemberValues, ReadsJson, IsNotJson, IsContent, texts_in_json, numbers_in_json, edges_in_json, edge_in_json, count_in_json};
ghost use Rattle.dg_file.specs.FileFaults.{IsEdgeFault};
ghost use Rattle.dg_file.specs.Reading.{member_values, RefusesShape};

use crate::fault::{FileFault, Shape};
use serde_json::Value;
use std::alloc::{AllocError, Global};
use std::marker::Model;
use thiserror::Error;

/// What a table file says, before names, graph and amounts are judged.
#[derive(Drop)]
pub struct Content<'v> {
    /// The names of the vertices.
    pub vertices: Vec<&'v str>,
    /// The edges.
    pub edges: Vec<FileEdge<'v>>,
    /// The amounts.
    pub amounts: Vec<i64>,
    /// The name of the vertex q.
    pub q: &'v str,
}

impl<'v> Model for Content<'v> {
    ghost use Rattle.std.specs.Prelude.{map};
    ghost use Rattle.dg_file.specs.Content.{Content as Says};

    ghost Value = { Says };

    ghost view = { λ c. record {
      vertices = map (λ vertex. vertex.now) c.vertices.items;
      edges = c.edges.items;
      amounts = c.amounts.items;
      q = c.q.now;
    } };
}

/// An edge as a table file gives it.
#[derive(Drop)]
pub struct FileEdge<'v> {
    /// The name of one end.
    pub one: &'v str,
    /// The name of the other end.
    pub other: &'v str,
    /// How often the edge is there.
    pub count: u8,
}

impl<'v> Model for FileEdge<'v> {
    ghost use Rattle.dg_file.specs.Content.{FileEdge as Says};

    ghost Value = { Says };

    ghost view = { λ e. record { one = e.one.now; other = e.other.now; count = e.count } };
}

/// The JSON value of the bytes, if they have one.
pub fn value_from_json(alloc: Global, bytes: &[u8]) -> Result<Option<Value>, AllocError>
    ensures { IfOk result (λ value. MatchOption value (IsNotJson bytes.now)
        (λ value. ReadsJson bytes.now (view value))) }
{
    match Value::from_slice(alloc, bytes) {
        Ok(value) => Ok(Some(value)),
        Err(error) if error.is_memory() => Err(AllocError),
        Err(_) => Ok(None),
    }
}

/// Why a JSON value says nothing as a table file.
#[derive(Clone, Copy, Debug, Error)]
pub enum ShapeFault {
    /// A part of it has another shape than it should.
    #[error(transparent)]
    Shape(Shape),
    /// Memory was refused.
    #[error("{}", FileFault::OutOfMemory)]
    OutOfMemory,
}

impl From<AllocError> for ShapeFault {
    ghost use Rattle.dg_file.specs.declared.shape.ShapeFault.{ShapeFault};

    ghost from_gives = { λ _ fault. fault ≡ ShapeFault.OutOfMemory };

    fn from(_error: AllocError) -> ShapeFault {
        ShapeFault::OutOfMemory
    }
}

impl From<ShapeFault> for FileFault {
    ghost use Rattle.dg_file.specs.Reading.{shape_fault_for};

    ghost from_gives = { λ shape fault. fault ≡ shape_fault_for shape };

    fn from(fault: ShapeFault) -> FileFault {
        match fault {
            ShapeFault::Shape(shape) => FileFault::Shape(shape),
            ShapeFault::OutOfMemory => FileFault::OutOfMemory,
        }
    }
}

/// What a JSON value says as a table file. Its members are judged in the order of `Shape`.
pub fn content_from_json<'v>(alloc: Global, value: &'v Value) -> Result<Content<'v>, ShapeFault>
    ensures says { IfOk result (IsContent (view value.now)) }
    ensures refused { IfErr result (RefusesShape (view value.now)) }
{
    let Some(members) = members_from_json(value) else {
        return Err(ShapeFault::Shape(Shape::Top));
    };
    let Some(vertices) = vertices_from_json(alloc, members.vertices)? else {
        return Err(ShapeFault::Shape(Shape::Vertices));
    };
    let Some(items) = members.edges.as_array() else {
        return Err(ShapeFault::Shape(Shape::Edges));
    };
    let edges = match edges_from_json(alloc, items)? {
        Ok(edges) => edges,
        Err(i) => return Err(ShapeFault::Shape(Shape::Edge(i))),
    };
    let Some(amounts) = amounts_from_json(alloc, members.amounts)? else {
        return Err(ShapeFault::Shape(Shape::Amounts));
    };
    let Some(q) = members.q.as_str() else {
        return Err(ShapeFault::Shape(Shape::Q));
    };
    Ok(Content {
        vertices,
        edges,
        amounts,
        q,
    })
}

/// The four members of a table file.
#[derive(Clone, Copy)]
struct Members<'v> {
    vertices: &'v Value,
    edges: &'v Value,
    amounts: &'v Value,
    q: &'v Value,
}

fn members_from_json(value: &Value) -> Option<Members<'_>>
    ensures { MatchOption result ((parts : MemberValues) → ¬ HasMemberValues (view value.now) parts)
        (λ members. HasMemberValues (view value.now) (member_values members)) }
{
    let has_four = value.as_object()?.len() == 4;
    if !has_four {
        return None;
    }
    Some(Members {
        vertices: value.get("vertices")?,
        edges: value.get("edges")?,
        amounts: value.get("amounts")?,
        q: value.get("q")?,
    })
}

/// The texts of an array of texts.
fn vertices_from_json(alloc: Global, value: &Value) -> Result<Option<Vec<&str>>, AllocError>
    ensures { IfOk result (λ texts. texts_in_json (view value.now)
        ≡ option_map (λ texts. map (λ vertex. vertex.now) texts.items) texts) }
{
    let Some(items) = value.as_array() else {
        return Ok(None);
    };
    let mut vertices = Vec::new(alloc);
    for vertex in items {
        let Some(name) = vertex.as_str() else {
            return Ok(None);
        };
        vertices.push(name)?;
    }
    Ok(Some(vertices))
}

/// The edges that the items are, or the first item that is none.
fn edges_from_json<'v>(
    alloc: Global,
    items: &'v [Value],
) -> Result<Result<Vec<FileEdge<'v>>, usize>, AllocError>
    ensures edges { IfOk result (λ edges. IfOk edges (λ edges.
        edges_in_json (array (items_view items.now)) ≡ Some edges.items)) }
    ensures refused { IfOk result (λ edges. IfErr edges
        (IsEdgeFault (array (items_view items.now)))) }
{
    let mut edges = Vec::new(alloc);
    for (i, item) in items.iter().enumerate() {
        let Some(edge) = edge_from_json(item) else {
            return Ok(Err(i));
        };
        edges.push(edge)?;
    }
    Ok(Ok(edges))
}

fn edge_from_json(value: &Value) -> Option<FileEdge<'_>>
    ensures { result ≡ edge_in_json (view value.now) }
{
    let items = value.as_array()?;
    if items.len() != 3 {
        return None;
    }
    let (one, other, count) = (&items[0], &items[1], &items[2]);
    Some(FileEdge {
        one: one.as_str()?,
        other: other.as_str()?,
        count: count_from_json(count)?,
    })
}

fn count_from_json(value: &Value) -> Option<u8>
    ensures { result ≡ count_in_json (view value.now) }
{
    u8::try_from(value.as_i64()?).ok()
}

/// The numbers of an array of whole numbers.
fn amounts_from_json(alloc: Global, value: &Value) -> Result<Option<Vec<i64>>, AllocError>
    ensures { IfOk result (λ amounts. numbers_in_json (view value.now)
        ≡ option_map (λ amounts. amounts.items) amounts) }
{
    let Some(items) = value.as_array() else {
        return Ok(None);
    };
    let mut amounts = Vec::new(alloc);
    for item in items {
        let Some(amount) = item.as_i64() else {
            return Ok(None);
        };
        amounts.push(amount)?;
    }
    Ok(Some(amounts))
}
