// Why a run has no words.
ghost use Rattle.std.specs.Prelude.{◌≡◌, ◌∷◌, [], Some, codes, IfOk};
ghost use Rattle.std.specs.Fmt.{decimal};
ghost use Rattle.refusal_line.specs.Lines.{refused};
ghost use Rattle.stream_expect.specs.Refused.{said};

use mx_base::{NoMemory, Text};
use refusal_line::{Value, refusal_line};
use std::alloc::Global;

/// Why it isn't said what the stream equations say of a run.
#[derive(Debug, Drop)]
pub enum ExpectError {
    /// X1: the nodes times the ticks of all kernels sum to this number, which is above 2^24.
    TooLarge(u128),
    /// No memory was left.
    NoMemory,
}

// The line of X1: the number of words.
fn line_of_words(alloc: Global, words: u128) -> Result<Vec<u8>, NoMemory>
    ensures { IfOk result (λ line. line.items ≡ refused (codes "X1") (decimal words ∷ [])) }
{
    let digits = Text::from_vec(format!(in alloc; "{words}")?.into_bytes());
    refusal_line(alloc, "X1", &[Value::Name(&digits)])
}

impl ExpectError {
    /// The line that is said of the refusal: X1 and the number. Want of memory says none.
    pub fn line(&self, alloc: Global) -> Result<Vec<u8>, NoMemory>
        ensures { IfOk result (λ line. said self.now ≡ Some line.items) }
    {
        match self {
            ExpectError::TooLarge(words) => line_of_words(alloc, *words),
            ExpectError::NoMemory => Err(NoMemory),
        }
    }
}

impl From<NoMemory> for ExpectError {
    ghost from_gives = { λ _ e. e ≡ NoMemory };

    ghost use Rattle.stream_expect.specs.declared.error.ExpectError.TheVariants.{NoMemory};

    fn from(_: NoMemory) -> Self {
        ExpectError::NoMemory
    }
}
