//! Numbers of keys by their first occurrence.
ghost use Rattle.std.specs.Prelude.{◌≡◌, ℕ, ◌+◌, ◌<◌, ◌≤◌, ◌^◌, [], IfOk, OnOk, List};
ghost use Rattle.std.specs.List.{position_or_len};
ghost use Rattle.cell_core.specs.declared.cell.Cell.{Cell as CellSeen};
ghost use Rattle.cell_core.specs.Same.{same_cell};
ghost use Rattle.bat_group.specs.Numbers.{with_first, AreNumbered};

use cell_core::{Cell, Memory};
use std::collections::HashMap;
use std::hash::Hash;

/// The number of a key: that of the same key before, or else the next.
pub(crate) fn number_of<K: Eq + Hash + Drop>(
    numbers: &mut HashMap<K, u64>,
    count: &mut u64,
    key: K,
) -> Result<u64, Memory>
    requires { count.old < 2 ^ 60 }
    ensures place { IfOk result (λ n. (firsts : List K) → AreNumbered K.eq numbers.old count.old firsts → n ≡ position_or_len (λ y. K.eq y key) firsts) }
    ensures numbered { OnOk result ((firsts : List K) → AreNumbered K.eq numbers.old count.old firsts → AreNumbered K.eq numbers.new count.new (with_first K.eq firsts key)) }
    ensures few { OnOk result (count.new ≤ count.old + 1) }
{
    match numbers.get(&key).copied() {
        Some(number) => Ok(number),
        None => {
            let number = *count;
            numbers.insert(key, number)?;
            *count += 1;
            Ok(number)
        }
    }
}

/// The number of a cell: that of the same cell before, or else the next. Only a new one is shared.
#[inline]
pub(crate) fn number_of_cell(
    numbers: &mut HashMap<Cell, u64>,
    count: &mut u64,
    cell: &Cell,
) -> Result<u64, Memory>
    requires { count.old < 2 ^ 60 }
    ensures place { IfOk result (λ n. (firsts : List CellSeen) → AreNumbered same_cell numbers.old count.old firsts → n ≡ position_or_len (λ y. same_cell y cell.now) firsts) }
    ensures numbered { OnOk result ((firsts : List CellSeen) → AreNumbered same_cell numbers.old count.old firsts → AreNumbered same_cell numbers.new count.new (with_first same_cell firsts cell.now)) }
    ensures few { OnOk result (count.new ≤ count.old + 1) }
{
    match numbers.get(cell).copied() {
        Some(number) => Ok(number),
        None => {
            let number = *count;
            numbers.insert(cell.share()?, number)?;
            *count += 1;
            Ok(number)
        }
    }
}
