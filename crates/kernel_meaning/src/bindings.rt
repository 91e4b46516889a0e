// Bindings that are found by their names.
ghost use Rattle.std.specs.Prelude.{
  ◌≡◌,
  ◌∷◌,
  ◌-◌,
  ◌<◌,
  [],
  ℕ,
  List as Items,
  length,
  drop,
  cond,
  bytes_eq,
  OnOk,
  OnErr,
  IsSome,
};
ghost use Rattle.std.specs.Option.{option_copied};
ghost use Rattle.kernel_meaning.specs.Names as Names;
ghost use Rattle.kernel_meaning.specs.Places.{place_in, bound_at, assigned_at};
ghost use Rattle.kernel_meaning.specs.Index.{found_in};

use crate::{Binding, Value};
use indexmap::IndexMap;
use std::alloc::{AllocError, Global};
use std::marker::Model;

// A binding, and the place of the newest one before it that has the same name.
#[derive(Drop)]
struct Entry {
    binding: Binding,
    hidden: Option<usize>,
}

/// Bindings, of which the newest one of a name hides the older ones. A contract sees the list of
/// the bindings, the newest first. A name is found in about the same time among many as among few.
#[derive(Drop)]
pub struct Bindings {
    entries: Vec<Entry>,
    // The place of the newest binding of each name, counted from the oldest, from 0.
    places: IndexMap<Vec<u8>, usize>,
}

impl Model for Bindings {
    ghost use Rattle.std.specs.Prelude.{List as Items};
    ghost use Rattle.kernel_meaning.specs.declared.state.Binding.{Binding as Variable};

    ghost Value = { Items Variable };

    ghost use Rattle.kernel_meaning.specs.Index.{bindings_of, IsIndex};

    ghost view = { λ b. bindings_of b.entries.items };

    ghost invariant = { λ b. IsIndex b.entries.items b.places };
}

impl Bindings {
    /// No bindings. It takes no memory.
    pub fn new(alloc: Global) -> Self
        ensures { result ≡ [] }
    {
        Bindings {
            entries: Vec::new(alloc),
            places: IndexMap::new(alloc),
        }
    }

    /// How many bindings there are.
    pub fn len(&self) -> usize
        ensures { result ≡ length self.now }
    {
        self.entries.len()
    }

    /// Adds a binding, which hides the older ones of its name. Without memory for it the bindings
    /// stay as they were.
    pub fn push(&mut self, alloc: Global, binding: Binding) -> Result<(), AllocError>
        ensures ok { OnOk result (self.new ≡ binding ∷ self.old) }
        ensures err { OnErr result (self.new ≡ self.old) }
    {
        let name = binding.name.as_bytes().to_vec(alloc)?;
        self.entries.reserve(1)?;
        let hidden = self.places.insert(name, self.entries.len())?;
        self.entries.push(Entry { binding, hidden })?;
        Ok(())
    }

    /// The place of the newest binding of a name, counted from the oldest, from 0.
    pub fn place(&self, name: &[u8]) -> Option<usize>
        ensures { result ≡ place_in name.now self.now }
    {
        self.places.get(name).copied()
    }

    /// The newest binding of a name.
    pub fn newest(&self, name: &[u8]) -> Option<&Binding>
        ensures { option_copied result ≡ Names.bound_in name.now self.now }
    {
        let place = self.place(name)?;
        Some(&self.entries[place].binding)
    }

    /// The binding at a place, counted from the oldest, from 0, where there is one.
    pub fn at(&self, place: usize) -> Option<&Binding>
        ensures { option_copied result ≡ bound_at place self.now }
    {
        Some(&self.entries.get(place)?.binding)
    }

    /// Gives the binding at a place, counted from the oldest, from 0, another value.
    pub fn set(&mut self, place: usize, value: Value)
        requires { place < length self.old }
        ensures { self.new ≡ assigned_at place value self.old }
    {
        self.entries[place].binding.value = value;
    }

    /// Drops the newest, so that this many are left.
    pub fn keep(&mut self, count: usize)
        ensures { self.new ≡ drop (length self.old - count) self.old }
    {
        while self.len() > count {
            drop(self.take_newest());
        }
    }

    // Takes the newest binding off, so that the one that it hid is found again.
    fn take_newest(&mut self) -> Option<Entry>
        ensures { self.new ≡ drop 1 self.old }
    {
        let entry = self.entries.pop()?;
        restore(
            &mut self.places,
            entry.binding.name.as_bytes(),
            entry.hidden,
        );
        Some(entry)
    }
}

// A name, which has a place, gets an older one, or none.
fn restore(places: &mut IndexMap<Vec<u8>, usize>, name: &[u8], older: Option<usize>)
    requires { IsSome (found_in places.old name.now) }
    ensures { (other : Items ℕ) → found_in places.new other
        ≡ cond (bytes_eq name.now other) older (found_in places.old other) }
{
    match older {
        Some(place) => {
            if let Some(newest) = places.get_mut(name) {
                *newest = place;
            }
        }
        None => {
            places.swap_remove(name);
        }
    }
}
