// A pattern of stalls that is handed in.
ghost use Rattle.std.specs.Prelude.{◌≡◌, Bool, false};
ghost use Rattle.stall_source.specs.Stalls.{IsDecided, IsFreeAtZero};

/// Which ports stall, by a test that is handed in: it takes the pattern number, the number of the
/// edge from 0, and the number of the port from 0. The relation of the pattern is the one by which
/// the test answers. Three facts are asked of it: the test may be called on all arguments, its
/// arguments decide its answer, and at pattern number 0 no port stalls.
#[derive(Drop)]
pub struct Pattern<G> {
    /// The test.
    pub test: G,
}

impl<G: Fn(u64, u64, u32) -> bool> Pattern<G> {
    /// The pattern of this test.
    pub fn new(test: G) -> Self
        requires callable { G.IsAlwaysCallable test }
        requires decided { IsDecided (G.post test) }
        requires free { IsFreeAtZero (G.post test) }
        ensures { result.test ≡ test }
    {
        Pattern { test }
    }

    /// Whether a port stalls in an edge, which is exactly what the test answers of these arguments.
    pub fn stalls(&self, pick: u64, edge: u64, port: u32) -> bool
        requires callable { G.IsAlwaysCallable self.now.test }
        requires decided { IsDecided (G.post self.now.test) }
        requires free { IsFreeAtZero (G.post self.now.test) }
        ensures answer { G.post self.now.test pick edge port result }
        ensures decided { (a : Bool) → G.post self.now.test pick edge port a → result ≡ a }
        ensures free { pick ≡ 0 → result ≡ false }
    {
        (self.test)(pick, edge, port)
    }
}
