//! Graphs and what is reached in them.
use crate::{graph_of, no_marks, reached};
use std::test::Fail;

#[test]
fn all_that_links_lead_to_is_reached_once(rt: HostRuntime) -> Result<(), Fail> {
    // 0 leads to 1 and 2, both to 3, and 3 back to 1; 4 leads to itself, and 5 to 0.
    let links = [
        (0usize, 1usize),
        (0, 2),
        (1, 3),
        (2, 3),
        (3, 1),
        (4, 4),
        (5, 0),
    ];
    let graph = graph_of(rt.alloc(), 6, &links)?;
    let mut seen = no_marks(rt.alloc(), 6)?;
    let mut nodes = reached(rt.alloc(), &graph, 2, 1, &mut seen)?;
    nodes.sort_unstable();
    assert_eq!(rt; nodes.as_slice(), [1, 2, 3].as_slice());
    Ok(())
}
