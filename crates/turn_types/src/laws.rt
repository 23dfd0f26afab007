//! Laws over the definitions.

ghost use Rattle.std.specs.Prelude.{◌≡◌};
ghost use Rattle.turn_types.specs.FiveTuple.{tuple_cmp, TuplesGoByBytes};
ghost use Rattle.turn_types.specs.declared.address.FiveTuple.{FiveTuple};

use crate::address::FiveTuple;

/// The derived order of five-tuples, by which maps sort them, is that of their twelve bytes in network byte order.
pub fn tuples_go_by_bytes()
    ensures derived { (f g : FiveTuple) → ⟦<FiveTuple as Ord>⟧.cmp f g ≡ tuple_cmp f g }
    ensures bytes { TuplesGoByBytes }
{}
