// A list of its own, or those of the items of a shared list that a shared set marks.
ghost use Rattle.std.specs.Prelude.{◌≡◌, ◌<◌, ◌++◌, [], Some, length, slice_get, OnOk};
ghost use Rattle.digraph.specs.Rows.{picked};

use crate::Marks;
use mx_base::{List, NoMemory};
use std::alloc::Global;
use std::marker::Model;
use std::rc::Rc;

/// A list of values that is not changed in place. A contract sees it as the list of its items.
#[derive(Drop)]
pub struct Row<T> {
    kept: Kept<T>,
}

/// Where the items of a row are.
#[derive(Drop)]
pub enum Kept<T> {
    /// In a list of the row's own.
    Own(List<T>),
    /// In a list that others share.
    Marked(MarkedRow<T>),
}

/// The items of a list whose places are marked, with another one at each place that is not.
#[derive(Drop)]
pub struct MarkedRow<T> {
    pub items: Rc<List<T>>,
    pub marks: Rc<Marks>,
    pub other: T,
    pub len: usize,
}

impl<T> Model for Row<T> {
    ghost use Rattle.std.specs.Prelude.{List as Items};
    ghost use Rattle.digraph.specs.Rows.{items_of};

    ghost Value = { Items T };

    ghost view = { λ row. items_of row.kept };
}

impl<T> Row<T> {
    /// A row of these items. It takes no memory but theirs.
    pub fn own(items: List<T>) -> Self
        ensures { result ≡ items }
    {
        Row {
            kept: Kept::Own(items),
        }
    }
}

impl<T: Copy + Drop> Row<T> {
    /// A row of `len` items: at each place the one that stands there in a list, if the place is in
    /// a set, and else another one. The list and the set can be shared by many rows.
    pub fn marked(items: Rc<List<T>>, marks: Rc<Marks>, other: T, len: usize) -> Self
        ensures { result ≡ picked marks.value items.value other len }
    {
        Row {
            kept: Kept::Marked(MarkedRow {
                items,
                marks,
                other,
                len,
            }),
        }
    }

    /// The number of items.
    pub fn len(&self) -> usize
        ensures { result ≡ length self.now }
    {
        match &self.kept {
            Kept::Own(items) => items.len(),
            Kept::Marked(row) => row.len,
        }
    }

    /// The item at a place from 0.
    pub fn at(&self, place: usize) -> T
        requires { place < length self.now }
        ensures { slice_get self.now place ≡ Some result }
    {
        match &self.kept {
            Kept::Own(items) => *items.at(place),
            Kept::Marked(row) => row.at(place),
        }
    }

    /// Puts the items of a row behind those of this one, which without any becomes that row.
    pub fn join(&mut self, alloc: Global, more: Row<T>) -> Result<(), NoMemory>
        ensures { OnOk result (self.new ≡ self.old ++ more) }
    {
        if self.len() == 0 {
            *self = more;
            return Ok(());
        }
        let mut items = List::new(alloc);
        push_all(&mut items, self)?;
        push_all(&mut items, &more)?;
        *self = Row::own(items);
        Ok(())
    }
}

impl<T: Copy + Drop> MarkedRow<T> {
    /// The item at a place from 0.
    fn at(&self, place: usize) -> T
        requires { place < self.now.len }
        ensures { slice_get (picked self.now.marks.value self.now.items.value self.now.other self.now.len) place ≡ Some result }
    {
        if !self.marks.as_ref().has(place) {
            return self.other;
        }
        match self.items.as_ref().get(place) {
            Some(item) => *item,
            None => self.other,
        }
    }
}

/// Adds the items of a row at the end of a list.
fn push_all<T: Copy + Drop>(list: &mut List<T>, row: &Row<T>) -> Result<(), NoMemory>
    ensures { OnOk result (list.new ≡ list.old ++ row.now) }
{
    for place in 0..row.len() {
        list.push(row.at(place))?;
    }
    Ok(())
}
