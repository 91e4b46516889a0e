// The nodes that a kernel's nodes are made of.
use stream_graph::{Kernel, NodeId};

/// Whether a kernel has as many nodes as there are lists, and each has the operands of its list.
pub fn has_operands(kernel: &Kernel, lists: &[&[u32]]) -> bool {
    kernel.count() as usize == lists.len()
        && (0..kernel.count())
            .zip(lists)
            .all(|(number, list)| is_made_of(kernel, number, list))
}

// Whether the node of this number has these operands.
fn is_made_of(kernel: &Kernel, number: u32, list: &[u32]) -> bool {
    number < kernel.count() && are_numbers(kernel.operands(NodeId::new(number)), list)
}

// Whether nodes have these numbers.
fn are_numbers(nodes: &[NodeId], numbers: &[u32]) -> bool {
    nodes.len() == numbers.len()
        && nodes
            .iter()
            .zip(numbers)
            .all(|(node, number)| node.number() == *number)
}
