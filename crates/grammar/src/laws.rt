// Laws of the definitions, each the contract of a function that does nothing.
ghost use Rattle.std.specs.Prelude.{List};
ghost use Rattle.grammar.specs.Grammar.{Begins};
ghost use Rattle.grammar.specs.Completing.{IsProductive, IsCompleted};

/// A grammar: its parts and its tokens, which parts are which tokens, and the choices of a part.
pub trait Grammar {
    type Part;

    type Token;

    ghost is: { Self.Part → Self.Token → Type 0 };

    ghost choice: { Self.Part → List Self.Part → Type 0 };
}

/// Where each part of a grammar has a list of tokens, the tokens that begin a part are those that
/// some further tokens complete to a whole list of it.
pub fn begins<G: Grammar>()
    ensures completed { IsProductive G.is G.choice
        → (p : G.Part) (ts : List G.Token) → Begins G.is G.choice p ts → IsCompleted G.is G.choice p ts }
    ensures begun { (p : G.Part) (ts : List G.Token)
        → IsCompleted G.is G.choice p ts → Begins G.is G.choice p ts }
{}
