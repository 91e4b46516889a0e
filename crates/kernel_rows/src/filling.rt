// Arrays of arrays that are filled element by element.
ghost use Rattle.std.specs.Prelude.{◌≡◌, ◌<◌, ◌≤◌, ◌+◌, ◌-◌, ◌∷◌, [], length, OnOk, OnErr, IfOk};
ghost use Rattle.kernel_rows.specs.Filling.{IsTurn, IsWithin, Extends, IsGrown};
ghost use Rattle.kernel_rows.specs.Filling.{IsClosed, IsCompleted, full_value};

use kernel_meaning::{Declared, Stack, Value};
use mx_base::{List, NoMemory};
use std::alloc::Global;
use std::mem;

/// Arrays while they are filled.
#[derive(Drop)]
pub struct Filling {
    /// The elements of the arrays around the one that is filled, the innermost array first.
    pub outer: Stack<List<Value>>,
    /// The elements of the array that is filled, so far.
    pub elements: List<Value>,
    /// All arrays that are full.
    pub arrays: List<List<Value>>,
}

impl Filling {
    // Everything is made; the value is that of the outermost array.
    #[tactic(auto, using(crate::proofs::FillingTurns::extended_on))]
    fn complete(&mut self, alloc: Global, of: Declared, sizes: &[u32]) -> Result<Value, NoMemory>
        requires { IsWithin sizes.now self.old }
        ensures done { IsCompleted of sizes.now self.old self.new result }
        ensures more { Extends self.old.arrays self.new.arrays }
    {
        // No memory holds so many elements.
        'turns: for _ in 0..u64::MAX {
            if let Some(value) = self.turn(alloc, of, sizes)? {
                return Ok(value);
            }
        }
        Err(NoMemory)
    }

    // The next element comes, or the array that it is begins, or a full array is closed. The value
    // is that of the outermost array, where it is full.
    #[tactic(auto, using(crate::proofs::FillingTurns::closed_turned, crate::proofs::FillingTurns::nothing_comes, crate::proofs::FillingTurns::array_comes))]
    fn turn(
        &mut self,
        alloc: Global,
        of: Declared,
        sizes: &[u32],
    ) -> Result<Option<Value>, NoMemory>
        requires { IsWithin sizes.now self.old }
        ensures turn { IsTurn of sizes.now self.old self.new result }
        ensures more { Extends self.old.arrays self.new.arrays }
    {
        let depth = self.outer.len();
        let below = sizes.len() - depth - 1;
        if self.elements.len() >= sizes[depth] as usize {
            return self.close(alloc, of, below);
        }
        if below == 0 {
            self.elements.push(Value::Nothing)?;
            return Ok(None);
        }
        self.open(alloc)?;
        Ok(None)
    }

    // An array begins inside of the one that is filled.
    fn open(&mut self, alloc: Global) -> Result<(), NoMemory>
        ensures outer { OnOk result (self.new.outer ≡ self.old.elements ∷ self.old.outer) }
        ensures elements { OnOk result (self.new.elements ≡ []) }
        ensures arrays { self.new.arrays ≡ self.old.arrays }
    {
        let elements = mem::replace(&mut self.elements, List::new(alloc));
        self.outer.push(elements)?;
        Ok(())
    }

    // The array that is filled is full, with so many sizes below it, and is an element of the one
    // around it.
    fn close(
        &mut self,
        alloc: Global,
        of: Declared,
        below: usize,
    ) -> Result<Option<Value>, NoMemory>
        ensures closed { IsClosed self.old self.new (full_value of below self.old) result }
        ensures more { Extends self.old.arrays self.new.arrays }
    {
        let value = self.value(of, below)?;
        let elements = mem::replace(&mut self.elements, List::new(alloc));
        self.arrays.push(elements)?;
        match self.outer.pop() {
            None => Ok(Some(value)),
            Some(outer) => {
                self.elements = outer;
                self.elements.push(value)?;
                Ok(None)
            }
        }
    }

    // The value of the array that is full.
    fn value(&self, of: Declared, below: usize) -> Result<Value, NoMemory>
        ensures { IfOk result (λ value. value ≡ full_value of below self.now) }
    {
        let (Ok(number), Ok(below)) = (u32::try_from(self.arrays.len()), u32::try_from(below))
        else {
            return Err(NoMemory);
        };
        match of.rank.checked_add(below) {
            Some(rank) => Ok(Value::Array {
                number,
                of: Declared {
                    base: of.base,
                    rank,
                },
            }),
            None => Err(NoMemory),
        }
    }
}

/// New arrays of these sizes stand behind the arrays before, and have nothing in them; the value is
/// that of the outermost one. Without memory the arrays are as before.
pub fn grown(
    alloc: Global,
    of: Declared,
    sizes: &[u32],
    arrays: &mut List<List<Value>>,
) -> Result<Value, NoMemory>
    ensures ok { IsGrown of sizes.now arrays.old arrays.new result }
    ensures err { OnErr result (arrays.new ≡ arrays.old) }
{
    if sizes.is_empty() {
        return Ok(Value::Nothing);
    }
    let count = arrays.len();
    let mut filling = Filling {
        outer: Stack::new(alloc),
        elements: List::new(alloc),
        arrays: mem::replace(arrays, List::new(alloc)),
    };
    let result = filling.complete(alloc, of, sizes);
    let mut all = filling.arrays.into_vec();
    if result.is_err() {
        all.truncate(count);
    }
    *arrays = List::from_vec(all);
    result
}
