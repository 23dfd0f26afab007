//! Laws of the definitions.

ghost use Rattle.std.specs.Prelude.{◌≡◌, ℕ, Bool, List};
ghost use Rattle.turn_disk.specs.Disk.{State};
ghost use Rattle.turn_history.specs.History.{History};
ghost use Rattle.turn_store.specs.Carrying.{Carries};
ghost use Rattle.turn_store.specs.Format.{HoldsNothing};
ghost use Rattle.turn_record.specs.declared.version.Version.TheVariants.{V2};
ghost use Rattle.turn_store.specs.Areas.{Form};
ghost use Rattle.turn_store.specs.Images.{EachImage, IsInVersion, RepresentsAt};
ghost use Rattle.turn_store.specs.Laws.{AnImageHasOneTable, AnImageHasOneVersion};
ghost use Rattle.turn_store.specs.State.{RecoversToAt, StoreState, form_of};

use turn_disk::Disk;

/// What an image represents is one table, whatever history it is told by.
pub fn an_image_has_one_table()
    ensures { AnImageHasOneTable }
{}

/// An image is of one version.
pub fn an_image_has_one_version()
    ensures { AnImageHasOneVersion }
{}

/// Each image of the disk of a store that recovers to a history represents it, in the store's version.
pub fn a_store_at_rest_represents<D: Disk>()
    ensures stands { (store : StoreState D) (state : State) (c : ℕ) (h : History)
        → RecoversToAt store state c h → EachImage state (RepresentsAt (form_of store) h c) }
    ensures version { (store : StoreState D) (state : State) (c : ℕ) (h : History)
        → RecoversToAt store state c h → EachImage state (IsInVersion store.version (form_of store)) }
{}

/// A store of version 2 is opened as one, whether or not it may be carried over.
pub fn version_2_is_opened_as_version_2<D: Disk>()
    ensures { (carry : Bool) (content : List ℕ) (store : StoreState D) (form : Form)
        → IsInVersion V2 form content → Carries carry content store → store.version ≡ V2 }
{}

/// No opening of what holds nothing succeeds: what `Store::open` says of a store that it opened can't be said.
pub fn what_holds_nothing_is_not_opened<D: Disk>()
    ensures { (carry : Bool) (content : List ℕ) (store : StoreState D) → HoldsNothing content → Carries carry content store → ⊥ }
{}
