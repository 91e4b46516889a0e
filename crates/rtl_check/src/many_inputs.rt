// The places of many inputs, in a bit each.
ghost use Rattle.std.specs.Prelude.{◌≡◌, ◌<◌, ℕ, Some, true, length, slice_get, IfOk};
ghost use Rattle.digraph.specs.Rows.{is_marked, picked};
ghost use Rattle.rtl_check.specs.Picked.{HasSame, picked_places};

use digraph::{Marks, Row};
use mx_base::{List as Items, NoMemory};
use std::alloc::Global;
use std::rc::Rc;

/// The places in a set, all below an end. `one` is one of them.
#[derive(Drop)]
pub struct ManyInputs {
    marks: Rc<Marks>,
    one: usize,
    end: usize,
    ghost is_marked: { is_marked marks.value one ≡ true },
    ghost within: { one < end },
}

impl ManyInputs {
    /// The inputs at these places, of which there are some.
    pub fn of(alloc: Global, places: &[usize], end: usize) -> Result<Self, NoMemory>
        requires some { 0 < length places.now }
        requires within { (i n : ℕ) → slice_get places.now i ≡ Some n → n < end }
        ensures { IfOk result (λ inputs. HasSame places.now (picked_places inputs.marks.value inputs.one inputs.end)) }
    {
        let marks = Marks::of(alloc, places)?;
        Ok(ManyInputs {
            marks: shared(alloc, marks)?,
            one: places[0],
            end,
        })
    }

    /// The end of the places.
    pub fn end(&self) -> usize
        ensures { result ≡ self.now.end }
    {
        self.end
    }

    /// Those of these nets that stand at the places.
    pub fn joined(&self, nets: &Rc<Items<u32>>) -> Result<Row<u32>, NoMemory>
        requires { self.now.one < length nets.now.value }
        ensures { IfOk result (λ row. (one : ℕ) → slice_get nets.now.value self.now.one ≡ Some one
            → row ≡ picked self.now.marks.value nets.now.value one self.now.end) }
    {
        let one = *nets.as_ref().at(self.one);
        Ok(Row::marked(nets.clone()?, self.marks.clone()?, one, self.end))
    }
}

/// A value that can have several owners.
pub fn shared<T: Drop>(alloc: Global, value: T) -> Result<Rc<T>, NoMemory>
    ensures { IfOk result (λ held. held.value ≡ value) }
{
    match Rc::new(alloc, value) {
        Ok(held) => Ok(held),
        Err(_) => Err(NoMemory),
    }
}
