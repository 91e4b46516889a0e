// Why a graph is no kernel.
ghost use Rattle.std.specs.Prelude.{◌≡◌};

use crate::NodeId;
use mx_base::Text;
use std::alloc::{AllocError, AllocFailed};

/// Why a graph is no kernel.
#[derive(Debug, Drop)]
pub enum GraphError {
    /// Nothing is connected to this feed.
    Unconnected(NodeId),
    /// Two values or more are connected to this feed.
    ConnectedTwice(NodeId),
    /// Two inputs, two outputs or two scalars have this name.
    SamePort(Text),
    /// There are this many nodes, which is more than 4,096.
    TooManyNodes(u32),
    /// An offset by this many ticks, which is more than 1,048,576 either way.
    OffsetRange(i32),
    /// This chain has no counter.
    EmptyChain(NodeId),
    /// No memory was left.
    NoMemory,
}

impl From<mx_base::NoMemory> for GraphError {
    ghost from_gives = { λ _ e. e ≡ NoMemory };

    ghost use Rattle.stream_graph.specs.declared.error.GraphError.TheVariants.{NoMemory};

    fn from(_: mx_base::NoMemory) -> Self {
        GraphError::NoMemory
    }
}

impl From<AllocError> for GraphError {
    ghost from_gives = { λ _ e. e ≡ NoMemory };

    ghost use Rattle.stream_graph.specs.declared.error.GraphError.TheVariants.{NoMemory};

    fn from(_: AllocError) -> Self {
        GraphError::NoMemory
    }
}

impl<T: Drop> From<AllocFailed<T>> for GraphError {
    ghost from_gives = { λ _ e. e ≡ NoMemory };

    ghost use Rattle.stream_graph.specs.declared.error.GraphError.TheVariants.{NoMemory};

    fn from(_: AllocFailed<T>) -> Self {
        GraphError::NoMemory
    }
}
