// The program's own pattern.
ghost use Rattle.std.specs.Prelude.{◌≡◌};
ghost use Rattle.stall_source.specs.Stalls.{does_stall, first_mix, last_mix};

/// Whether a port stalls in an edge, by the pattern of the program. Every pattern number but 0
/// gives a pattern of its own, in which a port stalls about once in four edges; 0 gives none.
pub fn program_stalls(pick: u64, edge: u64, port: u32) -> bool
    ensures { result ≡ does_stall pick edge port }
{
    pick != 0 && mix_again(mix(pick, edge, port)) >> 62 == 0
}

// The sum of the three numbers, each spread over 64 bits.
fn mix(pick: u64, edge: u64, port: u32) -> u64
    ensures { result ≡ first_mix pick edge port }
{
    pick.wrapping_add(edge.wrapping_mul(0x9E3779B97F4A7C15))
        .wrapping_add((port as u64).wrapping_mul(0xBF58476D1CE4E5B9))
}

// Brings the high bits down, and spreads all once more.
fn mix_again(z: u64) -> u64
    ensures { result ≡ last_mix z }
{
    (z ^ (z >> 31)).wrapping_mul(0x94D049BB133111EB)
}
