// Latency tables.
ghost use Rattle.std.specs.Prelude.{◌≡◌, ◌≤◌, true, false, bytes_eq, option_map, IfSome};
ghost use Rattle.latency_table.specs.Rows.{are_in_range};

use crate::rows::Row;
use mx_base::List;
use mx_bits::Op;

/// The rows of one operation. Their widths rise strictly from 1 to 128, and their latencies are at
/// most 64.
#[derive(Drop)]
pub(crate) struct Entry {
    pub(crate) op: Op,
    pub(crate) rows: List<Row>,
    ghost in_range: { are_in_range rows ≡ true },
}

impl Entry {
    ghost use Rattle.latency_table.specs.Names.{name_of};
    ghost use Rattle.latency_table.specs.Rows.{row_at, IsOfWidth};

    // Whether these are the rows of an operation.
    fn is_of(&self, op: Op) -> bool
        ensures { result ≡ bytes_eq (name_of self.now.op) (name_of op) }
    {
        self.op == op
    }

    // The latency of the last row whose width isn't above this one, which is the greatest such width.
    fn latency(&self, width: u8) -> Option<u32>
        ensures value { result ≡ option_map (λ r. r.latency) (row_at self.now.rows width) }
        ensures of_width { IsOfWidth self.now.rows width result }
        ensures at_most { IfSome result (λ latency. latency ≤ 64) }
    {
        match self.row_at(width) {
            Some(row) => Some(u32::from(row.latency)),
            None => None,
        }
    }

    // The last row whose width isn't above this one.
    fn row_at(&self, width: u8) -> Option<&Row>
        ensures { option_map (λ r. r.now) result ≡ row_at self.now.rows width }
    {
        let rows = self.rows.as_slice().iter();
        rows.rev().find(|row| row.from <= width)
    }
}

/// Latencies of operations: how many ticks after its operands an operation has its result. Each
/// operation has rows, and a row says from which width of the operands on it has which latency.
#[derive(Drop)]
pub struct Table {
    pub(crate) entries: List<Entry>,
}

impl Table {
    ghost use Rattle.latency_table.specs.Rows.{IsOfWidth};
    ghost use Rattle.latency_table.specs.Tables.{entry_of, rows_at, is_free, latency_of};

    /// The latency of an operation on operands of this width in bits, in ticks: that of the row with
    /// the greatest width that isn't above it; `None` where there is no such row. That of `Shl`,
    /// `Shr` and `Cast` is 0 in every table.
    pub fn latency(&self, op: Op, width: u8) -> Option<u32>
        ensures value { result ≡ latency_of self.now op width }
        ensures of_width { is_free op ≡ false → IsOfWidth (rows_at self.now op) width result }
        ensures at_most { IfSome result (λ latency. latency ≤ 64) }
    {
        if matches!(op, Op::Shl | Op::Shr | Op::Cast) {
            return Some(0);
        }
        match self.entry_of(op) {
            Some(entry) => entry.latency(width),
            None => None,
        }
    }

    // The entry of an operation.
    fn entry_of(&self, op: Op) -> Option<&Entry>
        ensures { option_map (λ e. e.now) result ≡ entry_of self.now op }
    {
        self.entries.as_slice().iter().find(|entry| entry.is_of(op))
    }
}
