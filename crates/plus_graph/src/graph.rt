//! A graph by the edges of each node.

use crate::cells::{NONE, at, put, unset};
use std::alloc::{AllocError, Global};

/// Nodes from 0 on, and edges between them, numbered from 0 on as they were added.
#[derive(Drop)]
pub struct Graph {
    // For each edge its end.
    ends: Vec<usize>,
    // For each edge the one from the same node that was added before it.
    before: Vec<usize>,
    // For each node the edge that was added last.
    last: Vec<usize>,
}

impl Graph {
    /// A graph of so many nodes, without an edge.
    pub fn new(alloc: Global, nodes: usize) -> Result<Graph, AllocError> {
        Ok(Graph {
            ends: Vec::new(alloc),
            before: Vec::new(alloc),
            last: unset(alloc, nodes)?,
        })
    }

    /// Adds an edge.
    pub fn add_edge(&mut self, start: usize, end: usize) -> Result<(), AllocError> {
        let edge = self.ends.len();
        self.ends.push(end)?;
        self.before.push(at(self.last.as_slice(), start))?;
        put(&mut self.last, start, edge);
        Ok(())
    }

    /// How many nodes there are.
    pub fn nodes(&self) -> usize {
        self.last.len()
    }

    /// Where an edge ends.
    pub fn end(&self, edge: usize) -> usize {
        at(self.ends.as_slice(), edge)
    }

    /// The edges that a search has still to take: for each node the next one.
    pub fn untaken(&self) -> Result<Vec<usize>, AllocError> {
        self.last.clone()
    }

    /// Takes the next edge from a node, where one is left.
    pub fn take_edge(&self, untaken: &mut Vec<usize>, node: usize) -> Option<usize> {
        let edge = at(untaken.as_slice(), node);
        if edge == NONE {
            return None;
        }
        put(untaken, node, at(self.before.as_slice(), edge));
        Some(edge)
    }
}
