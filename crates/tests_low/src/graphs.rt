//! Components and searches of a small graph.

use plus_graph::{Graph, components, entered_by};
use std::alloc::{AllocError, Global};
use std::test::Fail;

// 0 alone, 1 and 2 in a ring that leads to 0, 3 that leads into the ring.
fn ring(alloc: Global) -> Result<Graph, AllocError> {
    let mut graph = Graph::new(alloc, 4)?;
    graph.add_edge(1, 0)?;
    graph.add_edge(1, 2)?;
    graph.add_edge(2, 1)?;
    graph.add_edge(3, 2)?;
    Ok(graph)
}

#[test]
fn a_ring_is_one_component(rt: HostRuntime) -> Result<(), Fail> {
    let graph = ring(rt.alloc())?;
    let found = components(rt.alloc(), &graph)?;
    assert_eq!(rt; found.as_slice(), [0, 1, 1, 2].as_slice());
    Ok(())
}

#[test]
fn a_search_tells_its_edges(rt: HostRuntime) -> Result<(), Fail> {
    let graph = ring(rt.alloc())?;
    let entered = entered_by(rt.alloc(), &graph, 3, 0)?;
    let none = usize::MAX;
    assert_eq!(rt; entered.as_slice(), [0, 2, 3, none].as_slice());
    Ok(())
}
