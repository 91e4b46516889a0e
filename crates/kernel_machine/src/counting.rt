// Steps are counted.
ghost use Rattle.std.specs.Prelude.{◌≡◌, suc};
ghost use Rattle.kernel_machine.specs.Answers.{IsCounted};

use crate::machine::Machine;

impl Machine {
    // Counts a step, where one is left.
    pub(crate) fn count(&mut self) -> bool
        ensures { IsCounted self.old result self.new }
    {
        match self.state.left.checked_sub(1) {
            Some(left) => {
                self.state.left = left;
                true
            }
            None => false,
        }
    }
}

/// One turn more of a loop than there are steps left: each turn counts a step.
pub(crate) fn most_turns(left: u32) -> u64
    ensures { result ≡ suc left }
{
    u64::from(left) + 1
}
