// The numbers of names.
ghost use Rattle.std.specs.Prelude.{◌≡◌, ◌∷◌, ◌++◌, [], List, Option, Some, length, OnOk};
ghost use Rattle.rtl_text.specs.Tree.{Name};
ghost use Rattle.verilog_read.specs.Tables.{IsTable, number_of};

use mx_base::NoMemory;
use std::alloc::Global;
use std::collections::HashMap;

/// Names with the number of the first thing that each was declared as.
#[derive(Drop)]
pub(crate) struct Table<'a> {
    numbers: HashMap<&'a [u8], u32>,
}

impl<'a> Table<'a> {
    pub(crate) fn new(alloc: Global) -> Self
        ensures { IsTable result [] }
    {
        Table {
            numbers: HashMap::new(alloc),
        }
    }

    /// Declares a name, unless it is declared already.
    pub(crate) fn declare(&mut self, name: &'a [u8], number: u32) -> Result<(), NoMemory>
        ensures { (names : List (Option Name)) → IsTable self.old names → number ≡ length names
            → OnOk result (IsTable self.new (names ++ Some name.now ∷ [])) }
    {
        if !self.numbers.contains_key(name) {
            self.numbers.insert(name, number)?;
        }
        Ok(())
    }

    /// The number of the first thing of a name.
    pub(crate) fn number(&self, name: &[u8]) -> Option<u32>
        ensures { (names : List (Option Name)) → IsTable self.now names → result ≡ number_of names name.now }
    {
        self.numbers.get(name).copied()
    }
}
