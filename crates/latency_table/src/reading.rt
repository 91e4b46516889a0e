// Reading a latency table.
ghost use Rattle.std.specs.Prelude.{◌≡◌, ◌⊎◌, IfOk};
ghost use Rattle.serde_json.specs.View.{view};
ghost use Rattle.latency_table.specs.Tables.{Reads, Parses, IsShaped, IsEntry, IsRanged, shape_fault, rows_under};
ghost use Rattle.latency_table.specs.declared.error.TableError.TheVariants.{Shape, NoMemory as WantOfMemory};

use crate::names::{OPERATIONS, names_operation, operation_name};
use crate::rows::{Row, are_pairs, rows_of};
use crate::table::Entry;
use crate::{Table, TableError};
use mx_base::{List, NoMemory, Text};
use mx_bits::Op;
use serde_json::Value;
use std::alloc::Global;

impl Table {
    /// The table that these bytes are: a JSON object, whose keys are names of operations and whose
    /// values are arrays of pairs `[from, latency]`. Errors: `NotJson`; `Shape` with the first key in
    /// byte order that is no such name or whose value is no array of pairs of whole numbers that are
    /// kept in 64 bits, and with `-` where the table is no object; then `Range` with the first
    /// operation in byte order of names whose rows are out of range or don't rise.
    pub fn read(alloc: Global, bytes: &[u8]) -> Result<Self, TableError>
        ensures { Reads bytes.now result }
    {
        let file = parse(alloc, bytes)?;
        refuse_other_shape(alloc, &file)?;
        read_rows(alloc, &file)
    }
}

// The JSON value that the bytes are.
fn parse(alloc: Global, bytes: &[u8]) -> Result<Value, TableError>
    ensures { Parses bytes.now result }
{
    match Value::from_slice(alloc, bytes) {
        Ok(value) => Ok(value),
        Err(error) if error.is_memory() => Err(TableError::NoMemory),
        Err(_) => Err(TableError::NotJson),
    }
}

// Refuses a value that is no object, and the first key in byte order that names no operation or
// whose value hasn't the form of rows.
fn refuse_other_shape(alloc: Global, file: &Value) -> Result<(), TableError>
    ensures { IsShaped (shape_fault (view file.now)) result }
{
    let Some(object) = file.as_object() else {
        return Err(shape(alloc, "-"));
    };
    for (key, value) in object.iter() {
        if !(names_operation(key) && are_pairs(value)) {
            return Err(shape(alloc, key));
        }
    }
    Ok(())
}

// The refusal of a key.
fn shape(alloc: Global, key: &str) -> TableError
    ensures { (result ≡ Shape key.now) ⊎ (result ≡ WantOfMemory) }
{
    match key.as_bytes().to_vec(alloc) {
        Ok(key) => TableError::Shape(Text::from_vec(key)),
        Err(_) => TableError::NoMemory,
    }
}

// The rows of all operations, or the first operation in byte order whose rows aren't in range.
fn read_rows(alloc: Global, file: &Value) -> Result<Table, TableError>
    ensures { IsRanged (view file.now) result }
{
    let mut entries = List::new(alloc);
    for op in OPERATIONS {
        entries.push(read_entry(alloc, op, file)?)?;
    }
    Ok(Table { entries })
}

// The rows of an operation, or its refusal where they aren't in range.
fn read_entry(alloc: Global, op: Op, file: &Value) -> Result<Entry, TableError>
    ensures { IsEntry op (view file.now) result }
{
    match rows_under(alloc, op, file)? {
        Some(rows) => Ok(Entry { op, rows }),
        None => Err(TableError::Range(op)),
    }
}

// The rows under the name of an operation, or `None` where they aren't in range; none where the name
// is no key.
fn rows_under(alloc: Global, op: Op, file: &Value) -> Result<Option<List<Row>>, NoMemory>
    ensures { IfOk result (λ rows. rows ≡ rows_under op (view file.now)) }
{
    match file.get(operation_name(op)) {
        Some(value) => rows_of(alloc, value),
        None => Ok(Some(List::new(alloc))),
    }
}
