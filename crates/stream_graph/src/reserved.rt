// A list with room for items that are still to come.
ghost use Rattle.std.specs.Prelude.{◌≡◌, ◌<◌, ◌≤◌, ◌+◌, ◌++◌, ◌∷◌, [], length, IfOk};

use mx_base::NoMemory;
use std::alloc::Global;

/// A list of items whose memory was taken before.
#[derive(Drop)]
pub struct Reserved<T> {
    items: Vec<T>,
}

impl<T: Drop> Reserved<T> {
    ghost use Rattle.std.specs.Vec.{vec_len, vec_capacity};

    /// An empty list with room for so many.
    pub fn new(alloc: Global, room: usize) -> Result<Self, NoMemory>
        ensures empty { IfOk result (λ r. r.items.items ≡ []) }
        ensures room { IfOk result (λ r. room ≤ vec_capacity r.items) }
    {
        Ok(Reserved {
            items: Vec::with_capacity(alloc, room)?,
        })
    }

    /// Adds an item, for which there is room. It takes no memory.
    pub fn put(&mut self, item: T)
        requires { length self.old.items.items < vec_capacity self.old.items }
        ensures items { self.new.items.items ≡ self.old.items.items ++ item ∷ [] }
        ensures room { vec_capacity self.old.items ≤ vec_capacity self.new.items }
    {
        let _put = self.items.push(item);
    }

    /// The items, lent.
    pub fn as_slice(&self) -> &[T]
        ensures { result.now ≡ self.now.items.items }
    {
        self.items.as_slice()
    }

    /// The number of items.
    pub fn len(&self) -> usize
        ensures { result ≡ length self.now.items.items }
    {
        self.items.len()
    }
}

impl<T: Copy> Reserved<T> {
    ghost use Rattle.std.specs.Vec.{vec_len, vec_capacity};

    /// Adds items, for which there is room. It takes no memory.
    pub fn put_all(&mut self, more: &[T])
        requires { length self.old.items.items + length more.now ≤ vec_capacity self.old.items }
        ensures items { self.new.items.items ≡ self.old.items.items ++ more.now }
        ensures room { vec_capacity self.old.items ≤ vec_capacity self.new.items }
    {
        let _put = self.items.extend_from_slice(more);
    }
}
