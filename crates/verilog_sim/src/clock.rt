// What the registers and memories hold: given to the registers before an edge, and written after it.
ghost use Rattle.std.specs.Prelude.{◌≡◌, ◌≢◌, ◌⊎◌, ℕ, ◌<◌, List, [], length, All, Some, slice_get, slice_index, slice_index_or};
ghost use Rattle.rtl_ir.specs.declared.design.Module.{Module};
ghost use Rattle.rtl_ir.specs.declared.design.Update.{Update};
ghost use Rattle.rtl_ir.specs.declared.design.Target.TheVariants.{Reg};
ghost use Rattle.rtl_ir.specs.Edge.{updated, updated_all};
ghost use Rattle.verilog_sim.specs.Contents.{family_of, contents_of, HasDepths};
ghost use Rattle.verilog_sim.specs.Updates.{IsUpdateSafe, IsLoadSafe, IsLoaded, IsUpdateSmall, IsLoadSmall};
ghost use Rattle.verilog_sim.specs.Updates.{held_by};

use crate::memory::Memory;
use crate::values::Values;
use rtl_ir::{Target, Update};

/// Gives each register the value that it holds. Where `narrow`, registers have at most 64 bits.
pub(crate) fn load(updates: &[Update], narrow: bool, ahead: &Values, values: &mut Values)
    requires safe { All (IsLoadSafe (length values.old)) updates.now }
    requires nets { length ahead.now ≡ length values.old }
    requires small { All (IsLoadSmall narrow ahead.now values.old) updates.now }
    ensures { IsLoaded updates.now ahead.now values.old values.new }
{
    for update in updates {
        if let Target::Reg(net) = update.target {
            values.write(net, ahead.read(net, narrow), narrow);
        }
    }
}

/// Writes what the updates write, with all values from before the edge. Where `narrow`, they write
/// words of at most 64 bits.
pub(crate) fn clock(
    updates: &[Update],
    narrow: bool,
    values: &Values,
    ahead: &mut Values,
    memories: &mut [Memory],
)
    requires safe { All (IsUpdateSafe (length values.now) (length memories.old)) updates.now }
    requires small { All (IsUpdateSmall narrow values.now) updates.now }
    requires nets { length ahead.old ≡ length values.now }
    ensures nets { length ahead.new ≡ length ahead.old }
    ensures others { (n : ℕ)
        → ((j : ℕ) (u : Update) → slice_get updates.now j ≡ Some u → u.target ≢ Reg n)
        → slice_index ahead.new n ≡ slice_index ahead.old n }
    ensures written { (m : Module) → HasDepths m memories.old
        → HasDepths m memories.new
        × (contents_of (held_by updates.now ahead.new) memories.new
        ≡ updated_all m (family_of values.now) updates.now
        (contents_of (held_by updates.now ahead.old) memories.old)) }
{
    for update in updates {
        write(update, narrow, values, ahead, memories);
    }
}

/// Writes what one update writes.
fn write(
    update: &Update,
    narrow: bool,
    values: &Values,
    ahead: &mut Values,
    memories: &mut [Memory],
)
    requires safe { IsUpdateSafe (length values.now) (length memories.old) update.now }
    requires small { IsUpdateSmall narrow values.now update.now }
    requires nets { length ahead.old ≡ length values.now }
    ensures nets { length ahead.new ≡ length ahead.old }
    ensures others { (n : ℕ) → update.now.target ≢ Reg n
        → slice_index ahead.new n ≡ slice_index ahead.old n }
    // by all updates among which this one is
    ensures written { (m : Module) (updates : List Update) (k : ℕ)
        → slice_get updates k ≡ Some update.now → HasDepths m memories.old
        → HasDepths m memories.new
        × (contents_of (held_by updates ahead.new) memories.new
        ≡ updated m (family_of values.now) update.now
        (contents_of (held_by updates ahead.old) memories.old)) }
{
    if values.read(update.enable, true) == 1 {
        let word = values.read(update.value, narrow);
        match update.target {
            Target::Reg(net) => ahead.set(net, word),
            Target::Cell(k, address) => {
                memories[k.index()].write(values.get(address), word);
            }
        }
    }
}
