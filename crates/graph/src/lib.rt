// The graph's bytes (document 01: a "sheet"): readers of its fields, and of the graph that they and the class bytes
// beside them spell. The check of the bytes stands in the crate `graph_check`. Everything is read from the caller's own
// bytes, and every public function of this file but `u16_within` takes any bytes. Edges are read through a view.
// The words of the contracts stand in specs/: `sheet_graph` is the graph with its weights as given, `graph_of` with its
// weights by class.
#![tactic(auto)]

pub mod surface;
pub mod view;

ghost use Rattle.std.specs.Prelude.{◌≡◌, ◌+◌, ◌*◌, ◌^◌, ◌≤◌, length};
ghost use Rattle.graph.specs.Graph.{one_end, other_end, weight_of, edge_count};
ghost use Rattle.graph.specs.Bytes.{u16_at, u32_at, sheet_graph, graph_of, Reads};

use crate::surface::adjust_edge;
use crate::view::View;
use std::marker::Model;

// The number that a byte is.
fn wide(x: u8) -> usize
    ensures { Reads x 256 result }
{
    x as usize
}

// The field of two bytes at a place within the bytes. The readers of edges use this one: it makes no test.
pub fn u16_within(b: &[u8], at: usize) -> usize
    requires { at + 2 ≤ length b.now }
    ensures { Reads (u16_at b.now at) (2 ^ 16) result }
{
    wide(b[at]) + 256 * wide(b[at + 1])
}

// The field of four bytes at a place within the bytes.
fn u32_within(b: &[u8], at: usize) -> u64
    requires { at + 4 ≤ length b.now }
    ensures { Reads (u32_at b.now at) (2 ^ 32) result }
{
    let value = u16_within(b, at) + 65536 * u16_within(b, at + 2);
    value as u64
}

// The field of two bytes at a place. Past the last byte there are zeros.
pub fn u16_at(b: &[u8], at: usize) -> usize
    ensures { Reads (u16_at b.now at) (2 ^ 16) result }
{
    if b.len() <= at {
        return 0;
    }
    if b.len() - at == 1 {
        return wide(b[at]);
    }
    u16_within(b, at)
}

// The field of four bytes at a place. Past the last byte there are zeros.
pub fn u32_at(b: &[u8], at: usize) -> u64
    ensures { Reads (u32_at b.now at) (2 ^ 32) result }
{
    if b.len() <= at {
        return 0;
    }
    let value = u16_at(b, at) + 65536 * u16_at(b, at + 2);
    value as u64
}

// How many vertices ("stops") the sheet has.
pub fn sheet_vertices(b: &[u8]) -> usize
    ensures { Reads (sheet_graph b.now).vertices (2 ^ 16) result }
{
    u16_at(b, 0)
}

// How many edges ("lines") the sheet has. Bytes whose length is not that of their edges have none.
pub fn sheet_edges(b: &[u8]) -> usize
    ensures { Reads (edge_count (sheet_graph b.now)) (2 ^ 16) result }
{
    if b.len() < 4 {
        return 0;
    }
    let m = u16_within(b, 2);
    if b.len() == 4 + 8 * m { m } else { 0 }
}

// One end of edge e, of m edges; 0 past the last edge.
pub(crate) fn one_end_at(b: &[u8], m: usize, e: usize) -> usize
    requires { m ≡ edge_count (sheet_graph b.now) }
    ensures { Reads (one_end (sheet_graph b.now) e) (2 ^ 16) result }
{
    if e < m { u16_within(b, 4 + 4 * e) } else { 0 }
}

// The other end of edge e, of m edges; 0 past the last edge.
pub(crate) fn other_end_at(b: &[u8], m: usize, e: usize) -> usize
    requires { m ≡ edge_count (sheet_graph b.now) }
    ensures { Reads (other_end (sheet_graph b.now) e) (2 ^ 16) result }
{
    if e < m {
        u16_within(b, 4 + 4 * e + 2)
    } else {
        0
    }
}

// The weight as given of edge e, of m edges; 0 past the last edge.
pub(crate) fn weight_at(b: &[u8], m: usize, e: usize) -> u64
    requires { m ≡ edge_count (sheet_graph b.now) }
    ensures { Reads (weight_of (sheet_graph b.now) e) (2 ^ 32) result }
{
    if e < m {
        u32_within(b, 4 + 4 * m + 4 * e)
    } else {
        0
    }
}

// The graph that a sheet's bytes and the class bytes beside them spell: a view of the bytes, so that nothing counts the
// edges again, and the classes. No byte is copied. A contract sees the graph that they spell.
#[derive(Drop)]
pub struct Graph<'a> {
    sheet: View<'a>,
    classes: &'a [u8],
}

impl<'a> Model for Graph<'a> {
    ghost use Rattle.graph.specs.Graph.{Graph};

    ghost Value = { Graph };

    ghost use Rattle.graph.specs.Bytes.{graph_of};
    ghost use Rattle.graph.specs.Held.{Held};

    ghost view = { λ s. graph_of s.sheet.bytes.now s.classes.now };

    ghost invariant = { Held };
}

impl<'a> Graph<'a> {
    // The graph that a sheet and its classes spell. Any bytes spell one.
    pub fn new(bytes: &'a [u8], classes: &'a [u8]) -> Graph<'a>
        ensures { result ≡ graph_of bytes.now classes.now }
    {
        Graph {
            sheet: View::new(bytes, sheet_vertices(bytes), sheet_edges(bytes)),
            classes,
        }
    }

    // How many vertices ("stops") the graph has.
    pub fn vertex_count(&self) -> usize
        ensures { Reads self.now.vertices (2 ^ 16) result }
    {
        self.sheet.vertices
    }

    // How many edges ("lines") the graph has.
    pub fn edge_count(&self) -> usize
        ensures { Reads (edge_count self.now) (2 ^ 16) result }
    {
        self.sheet.edges
    }

    // One end of edge e; 0 past the last edge.
    pub fn one_end(&self, e: usize) -> usize
        ensures { Reads (one_end self.now e) (2 ^ 16) result }
    {
        self.sheet.one_end(e)
    }

    // The other end of edge e; 0 past the last edge.
    pub fn other_end(&self, e: usize) -> usize
        ensures { Reads (other_end self.now e) (2 ^ 16) result }
    {
        self.sheet.other_end(e)
    }

    // The weight of edge e as given, whatever its class: that by its class is no less, and at most twice it.
    pub fn given_weight(&self, e: usize) -> u64
        ensures low { result ≤ weight_of self.now e }
        ensures high { weight_of self.now e ≤ 2 * result }
    {
        self.sheet.weight(e)
    }

    // The weight of edge e, by its class; 0 past the last edge.
    pub fn weight(&self, e: usize) -> u64
        ensures { Reads (weight_of self.now e) (2 ^ 33) result }
    {
        adjust_edge(self.sheet.weight(e), self.classes, e)
    }
}
