//! The strong components of a graph (Tarjan 1972).

use crate::cells::{NONE, at, put, unset};
use crate::graph::Graph;
use std::alloc::{AllocError, Global};

// Where a search stands.
#[derive(Drop)]
struct Search {
    untaken: Vec<usize>,
    // When each node was met.
    met: Vec<usize>,
    // The earliest node that each is known to reach, by when it was met.
    reached: Vec<usize>,
    // The component of each node, once it is closed.
    component: Vec<usize>,
    // The way from the root to where the search stands.
    path: Vec<usize>,
    // The nodes that were met and are in no closed component, in the order in which they were met.
    open: Vec<usize>,
    clock: usize,
    closed: usize,
}

impl Search {
    fn meet(&mut self, node: usize) -> Result<(), AllocError> {
        let clock = self.clock;
        put(&mut self.met, node, clock);
        put(&mut self.reached, node, clock);
        self.path.push(node)?;
        self.open.push(node)?;
        self.clock = clock.wrapping_add(1);
        Ok(())
    }

    fn reach(&mut self, node: usize, clock: usize) {
        let reached = at(self.reached.as_slice(), node);
        put(&mut self.reached, node, reached.min(clock));
    }

    // Closes the component of a node: its nodes are those that are open and were not met before it.
    fn close(&mut self, node: usize) {
        let closed = self.closed;
        self.closed = closed.wrapping_add(1);
        for _ in 0..usize::MAX {
            match self.open.pop() {
                None => return,
                Some(member) => {
                    put(&mut self.component, member, closed);
                    if member == node {
                        return;
                    }
                }
            }
        }
    }

    fn leave(&mut self, node: usize) {
        self.path.pop();
        let reached = at(self.reached.as_slice(), node);
        if reached == at(self.met.as_slice(), node) {
            self.close(node);
        }
        let below = self.path.last().copied();
        if let Some(below) = below {
            self.reach(below, reached);
        }
    }

    fn follow(&mut self, node: usize, end: usize) -> Result<(), AllocError> {
        let met = at(self.met.as_slice(), end);
        if met == NONE {
            return self.meet(end);
        }
        if at(self.component.as_slice(), end) == NONE {
            self.reach(node, met);
        }
        Ok(())
    }

    fn search_from(&mut self, graph: &Graph, root: usize) -> Result<(), AllocError> {
        if at(self.met.as_slice(), root) != NONE {
            return Ok(());
        }
        self.meet(root)?;
        for _ in 0..usize::MAX {
            let here = self.path.last().copied();
            let Some(node) = here else {
                return Ok(());
            };
            match graph.take_edge(&mut self.untaken, node) {
                None => self.leave(node),
                Some(edge) => self.follow(node, graph.end(edge))?,
            }
        }
        Ok(())
    }
}

/// For each node the number of its strong component. No edge goes to a component of a higher number.
pub fn components(alloc: Global, graph: &Graph) -> Result<Vec<usize>, AllocError> {
    let nodes = graph.nodes();
    let mut search = Search {
        untaken: graph.untaken()?,
        met: unset(alloc, nodes)?,
        reached: unset(alloc, nodes)?,
        component: unset(alloc, nodes)?,
        path: Vec::new(alloc),
        open: Vec::new(alloc),
        clock: 0,
        closed: 0,
    };
    for root in 0..nodes {
        search.search_from(graph, root)?;
    }
    let Search {
        component,
        untaken: _,
        met: _,
        reached: _,
        path: _,
        open: _,
        clock: _,
        closed: _,
    } = search;
    Ok(component)
}
