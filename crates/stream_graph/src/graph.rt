// The calls of a kernel, kept in memory that was taken before.
ghost use Rattle.std.specs.Prelude.{◌≡◌, ◌≤◌, ◌<◌, ◌+◌, ◌^◌, ◌++◌, ◌∷◌, [], length};
ghost use Rattle.std.specs.Vec.{vec_len, vec_capacity};
ghost use Rattle.stream_graph.specs.Graphs.{IsWithin, AreWithin, nodes_by, nodes_in};

use crate::NodeId;
use crate::reserved::Reserved;
use crate::row::{Piece, Row};

/// The calls that were received.
#[derive(Drop)]
pub struct Graph {
    pub(crate) rows: Reserved<Row>,
    pub(crate) bytes: Reserved<u8>,
    pub(crate) operands: Reserved<NodeId>,
    pub(crate) made: u32,
    ghost counted: { made ≡ nodes_in rows.items.items },
    ghost within: { AreWithin (length bytes.items.items) (length operands.items.items) rows.items.items },
}

impl Graph {
    /// Adds a name.
    #[tactic(auto, using(crate::proofs::Rows::all_within))]
    pub(crate) fn name(&mut self, name: &[u8]) -> Piece
        requires room { length self.old.bytes.items.items + length name.now ≤ vec_capacity self.old.bytes.items }
        requires few { length self.old.bytes.items.items + length name.now < 2 ^ 32 }
        ensures piece { result ≡ record { from = length self.old.bytes.items.items; len = length name.now } }
        ensures bytes { self.new.bytes.items.items ≡ self.old.bytes.items.items ++ name.now }
        ensures space { vec_capacity self.old.bytes.items ≤ vec_capacity self.new.bytes.items }
        ensures rows { self.new.rows ≡ self.old.rows }
        ensures operands { self.new.operands ≡ self.old.operands }
        ensures made { self.new.made ≡ self.old.made }
    {
        let from = self.bytes.len() as u32;
        self.bytes.put_all(name);
        Piece {
            from,
            len: name.len() as u32,
        }
    }

    /// Adds a call that makes a node.
    #[tactic(auto, using(crate::proofs::Rows::and_one))]
    pub(crate) fn node(&mut self, row: Row) -> NodeId
        requires room { length self.old.rows.items.items < vec_capacity self.old.rows.items }
        requires few { self.old.made + 1 < 2 ^ 32 }
        requires makes { nodes_by row ≡ 1 }
        requires within { IsWithin (length self.old.bytes.items.items) (length self.old.operands.items.items) row }
        ensures number { result ≡ self.old.made }
        ensures rows { self.new.rows.items.items ≡ self.old.rows.items.items ++ row ∷ [] }
        ensures space { vec_capacity self.old.rows.items ≤ vec_capacity self.new.rows.items }
        ensures bytes { self.new.bytes ≡ self.old.bytes }
        ensures operands { self.new.operands ≡ self.old.operands }
        ensures made { self.new.made ≡ self.old.made + 1 }
    {
        let number = NodeId::new(self.made);
        self.rows.put(row);
        self.made += 1;
        number
    }

    /// Adds operands.
    #[tactic(auto, using(crate::proofs::Rows::all_within))]
    pub(crate) fn args(&mut self, args: &[NodeId]) -> Piece
        requires room { length self.old.operands.items.items + length args.now ≤ vec_capacity self.old.operands.items }
        requires few { length self.old.operands.items.items + length args.now < 2 ^ 32 }
        ensures piece { result ≡ record { from = length self.old.operands.items.items; len = length args.now } }
        ensures operands { self.new.operands.items.items ≡ self.old.operands.items.items ++ args.now }
        ensures space { vec_capacity self.old.operands.items ≤ vec_capacity self.new.operands.items }
        ensures rows { self.new.rows ≡ self.old.rows }
        ensures bytes { self.new.bytes ≡ self.old.bytes }
        ensures made { self.new.made ≡ self.old.made }
    {
        let from = self.operands.len() as u32;
        self.operands.put_all(args);
        Piece {
            from,
            len: args.len() as u32,
        }
    }

    /// Adds a call that makes no node.
    #[tactic(auto, using(crate::proofs::Rows::and_one))]
    pub(crate) fn row(&mut self, row: Row)
        requires room { length self.old.rows.items.items < vec_capacity self.old.rows.items }
        requires makes { nodes_by row ≡ 0 }
        requires within { IsWithin (length self.old.bytes.items.items) (length self.old.operands.items.items) row }
        ensures rows { self.new.rows.items.items ≡ self.old.rows.items.items ++ row ∷ [] }
        ensures space { vec_capacity self.old.rows.items ≤ vec_capacity self.new.rows.items }
        ensures bytes { self.new.bytes ≡ self.old.bytes }
        ensures operands { self.new.operands ≡ self.old.operands }
        ensures made { self.new.made ≡ self.old.made }
    {
        self.rows.put(row);
    }
}
