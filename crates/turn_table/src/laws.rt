//! What holds of the contents of a table, as the contract of a function that does nothing.

ghost use Rattle.std.specs.Prelude.{ℕ};
ghost use Rattle.turn_history.specs.Table.{Contents};
ghost use Rattle.turn_table.specs.Table.{IsAbove, IsAboveLast, IsAboveLastReserved, IsAboveReserved};
ghost use Rattle.turn_types.specs.declared.address.FiveTuple.{FiveTuple};

/// A five-tuple above the last that has an entry, which `Table::last` returns, is above all that have one, as
/// `Table::restore` requires.
pub fn above_the_last()
    ensures { (c : Contents) (f : FiveTuple) → IsAboveLast c f → IsAbove c f }
{}

/// A port above the last that is reserved, in `Table::reserved_ports`, is above all that are, as `Table::restore_reserved`
/// requires.
pub fn above_the_last_reserved()
    ensures { (c : Contents) (port : ℕ) → IsAboveLastReserved c port → IsAboveReserved c port }
{}
