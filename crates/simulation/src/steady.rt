// The ports that keep one value in a run.
ghost use Rattle.std.specs.Prelude.{◌≡◌, ◌≤◌, ◌<◌, ◌+◌, ◌^◌, ◌++◌, ℕ, Some, length, slice_get, slice_index};
ghost use Rattle.rtl_ir.specs.declared.design.Module.{Module};
ghost use Rattle.rtl_ir.specs.Flat.{top_of};
ghost use Rattle.rtl_ir.specs.Value.{width_of};

use verilog_sim::Sim;

/// Sets the ports that keep one value: the ticks of the kernels, and then the scalars.
pub(crate) fn set_all(sim: &mut Sim<'_>, ticks: &[u64], scalars: &[u128])
    requires ports { length ticks.now + length scalars.now ≡ length sim.old.steady }
    requires small { length sim.old.steady ≤ 2 ^ 32 }
    requires widths { (m : Module) → top_of sim.old.design ≡ Some m → (k value : ℕ) → slice_get (ticks.now ++ scalars.now) k ≡ Some value
        → value < 2 ^ width_of m (slice_index sim.old.outer.steady k) }
    ensures { sim.new ≡ record sim.old { steady = ticks.now ++ scalars.now } }
{
    for port in 0..ticks.len() + scalars.len() {
        sim.set(port as u32, value_at(ticks, scalars, port));
    }
}

/// The value of a port, by its number.
fn value_at(ticks: &[u64], scalars: &[u128], port: usize) -> u128
    requires { port < length ticks.now + length scalars.now }
    ensures { result ≡ slice_index (ticks.now ++ scalars.now) port }
{
    if port < ticks.len() {
        u128::from(ticks[port])
    } else {
        scalars[port - ticks.len()]
    }
}
