// A set of numbers, in a bit each.
ghost use Rattle.std.specs.Prelude.{◌≡◌, ◌≢◌, ℕ, ◌+◌, ◌*◌, ◌/◌, ◌<◌, ◌≤◌, Some, true, false, length, slice_get, slice_index, IfOk};
ghost use Rattle.digraph.specs.Rows.{is_marked, AreMarked};

use mx_base::NoMemory;
use std::alloc::Global;
use std::marker::Model;

/// A set of numbers. A contract sees it as its words of 64 bits, and a number past them is not in it.
#[derive(Drop)]
pub struct Marks {
    words: Vec<u64>,
}

impl Model for Marks {
    ghost use Rattle.std.specs.Prelude.{ℕ, List};

    ghost Value = { List ℕ };

    ghost view = { λ m. m.words.items };
}

impl Marks {
    /// The set of these numbers.
    pub fn of(alloc: Global, numbers: &[usize]) -> Result<Self, NoMemory>
        ensures { IfOk result (AreMarked numbers.now) }
    {
        let mut marks = Marks::up_to(alloc, greatest(numbers))?;
        for i in 0..numbers.len() {
            marks.mark(numbers[i]);
        }
        Ok(marks)
    }

    /// The empty set, with a bit for each number up to this one.
    fn up_to(alloc: Global, number: usize) -> Result<Self, NoMemory>
        ensures size { IfOk result (λ m. length m ≡ number / 64 + 1) }
        ensures none { IfOk result (λ m. (n : ℕ) → is_marked m n ≡ false) }
    {
        let words = vec![in alloc; 0u64; number / 64 + 1]?;
        Ok(Marks { words })
    }

    /// Puts a number into the set, which has a bit for it.
    fn mark(&mut self, number: usize)
        requires { number / 64 < length self.old }
        ensures size { length self.new ≡ length self.old }
        ensures marked { is_marked self.new number ≡ true }
        ensures others { (n : ℕ) → n ≢ number → is_marked self.new n ≡ is_marked self.old n }
    {
        self.words[number / 64] |= 1 << (number % 64);
    }

    /// Whether a number is in the set.
    pub fn has(&self, number: usize) -> bool
        ensures { result ≡ is_marked self.now number }
    {
        match self.words.get(number / 64) {
            Some(word) => (*word >> (number % 64)) & 1 == 1,
            None => false,
        }
    }
}

/// The greatest of these numbers, and 0 without any.
pub fn greatest(numbers: &[usize]) -> usize
    ensures { (i n : ℕ) → slice_get numbers.now i ≡ Some n → n ≤ result }
{
    let mut most = 0;
    for i in 0..numbers.len() {
        most = numbers[i].max(most);
    }
    most
}
