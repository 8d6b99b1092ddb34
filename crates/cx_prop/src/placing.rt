//! Where mappings and shapes are placed.

ghost use Rattle.std.specs.Prelude.{◌≡◌, ℕ, ◌<◌, ◌+◌, ◌≤◌, ◌^◌, Some, slice_get, OnErr, IfOk, IsOk, IsErrOf};
ghost use Rattle.std.specs.Map.{keys_of};
ghost use Rattle.cx_base.specs.declared.stop.Stop.TheVariants.{NoMemory};
ghost use Rattle.cx_prop.specs.Kept.{Places, Puts, mappings};

use crate::shape::{Noted, Shape};
use cx_base::{FormulaId, Stop, TermId};
use indexmap::{IndexMap, IndexSet};
use std::alloc::Global;

/// The number of a mapping, which is put at the end where it is new. Takes memory only there.
pub fn placed_map(
    alloc: Global,
    maps: &mut IndexSet<Vec<(u32, TermId)>>,
    map: &[(u32, TermId)],
) -> Result<usize, Stop>
    ensures ok { IfOk result (λ n. Puts (mappings maps.old.keys) (mappings maps.new.keys) map.now n) }
    ensures err { OnErr result (maps.new.keys ≡ maps.old.keys) }
    ensures there { (j : ℕ) → slice_get (mappings maps.old.keys) j ≡ Some map.now → IsOk result }
    ensures only_memory { OnErr result (IsErrOf result NoMemory) }
{
    if let Some(number) = maps.get_index_of(map) {
        return Ok(number);
    }
    let map = Vec::from_slice(alloc, map)?;
    let (number, _) = maps.insert_full(map)?;
    Ok(number)
}

/// The number of a shape, which is placed at the end where it is new. Takes memory only there.
pub fn placed(
    shapes: &mut IndexMap<Shape, Noted>,
    shape: Shape,
    noted: Noted,
) -> Result<FormulaId, Stop>
    ensures ok { IfOk result (λ f. Places shapes.old.entries shapes.new.entries shape noted f.0) }
    ensures err { OnErr result (shapes.new.entries ≡ shapes.old.entries) }
    ensures there { (j : ℕ) → slice_get (keys_of shapes.old.entries) j ≡ Some shape → IsOk result }
    ensures only_memory { OnErr result (IsErrOf result NoMemory) }
{
    if let Some(number) = shapes.get_index_of(&shape) {
        return Ok(FormulaId(number));
    }
    let (number, _) = shapes.insert_full(shape, noted)?;
    Ok(FormulaId(number))
}

/// How many atoms there are once an atom has its number, where there were `atoms` among so many formulas.
pub fn counted(atoms: usize, number: FormulaId, before: usize) -> usize
    requires few { atoms ≤ before }
    requires small { before < 2 ^ 63 }
    ensures new { number.0 ≡ before → result ≡ atoms + 1 }
    ensures old { number.0 < before → result ≡ atoms }
{
    if number.0 == before { atoms + 1 } else { atoms }
}
