//! A search from a node.

use crate::cells::{NONE, at, put, unset};
use crate::graph::Graph;
use std::alloc::{AllocError, Global};

/// For each node the edge by which a search meets it: from the root on, and then from another. The
/// greatest number stands for none.
pub fn entered_by(
    alloc: Global,
    graph: &Graph,
    root: usize,
    other: usize,
) -> Result<Vec<usize>, AllocError> {
    let mut entered = unset(alloc, graph.nodes())?;
    let mut untaken = graph.untaken()?;
    let mut path = Vec::new(alloc);
    path.push(other)?;
    path.push(root)?;
    for _ in 0..usize::MAX {
        let here = path.last().copied();
        let Some(node) = here else {
            return Ok(entered);
        };
        match graph.take_edge(&mut untaken, node) {
            None => {
                path.pop();
            }
            Some(edge) => {
                let end = graph.end(edge);
                if at(entered.as_slice(), end) == NONE {
                    put(&mut entered, end, edge);
                    path.push(end)?;
                }
            }
        }
    }
    Ok(entered)
}
