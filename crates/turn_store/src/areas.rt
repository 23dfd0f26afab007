//! The three steps that put a snapshot into the other area, which then is active.

ghost use Rattle.std.specs.Prelude.{◌≡◌, ◌⊎◌, [], ◌∷◌, ◌++◌, ◌+◌, ◌≤◌, ◌<◌, ◌^◌, ℕ, List, true, length};
ghost use Rattle.turn_disk.specs.Disk.{StandsAt, WritesOnce};
ghost use Rattle.turn_journal.specs.Frames.{IsClosed};
ghost use Rattle.turn_journal.specs.Layout.{closed_gate, gate_size};
ghost use Rattle.turn_record.specs.declared.version.Version.{Version};
ghost use Rattle.turn_store.specs.Areas.{Form, area_front, Holds, HoldsAt, RecoversToParts};
ghost use Rattle.turn_store.specs.Layout.{head_size, version_at};
ghost use Rattle.turn_store.specs.Stages.{Leaves, Replaces};
ghost use Rattle.turn_store.specs.Superblock.{least_area};
ghost use Rattle.turn_store.specs.Writes.{IsStep};

use crate::layout::VERSION_AT;
use turn_disk::{DeviceError, Disk, Meanwhile, Producer, write_produced, write_through};
use turn_journal::{CLOSED, OPEN};

// Closes the other area's gate, unless it is closed already: where the generation after it isn't below, a torn write of the
// gate could open the wrong area.
fn close<D: Disk, M: Meanwhile>(
    disk: &mut D,
    gate: usize,
    is_below: bool,
    other: &mut M,
) -> Result<(), DeviceError>
    requires { gate < D.capacity disk.old }

    // A stop at any moment leaves what was there.
    ensures { IsStep D.Disk M.passes disk.old disk.new other.old other.new result (λ old new.
        (v : Version) (form : Form) (start generation end : ℕ) (snapshot : List ℕ) (payloads : List (List ℕ))
        → RecoversToParts v form start gate generation end is_below snapshot payloads old.now
        → Leaves old new (Holds v form snapshot payloads)
        (λ state. HoldsAt v form start gate generation snapshot payloads state × IsClosed gate state.bytes) result) }
{
    if is_below {
        write_through(disk, gate, &[CLOSED], other)?;
    }
    Ok(())
}

// Writes what follows the other area's closed gate.
fn fill<D: Disk, P: Producer, M: Meanwhile>(
    disk: &mut D,
    gate: usize,
    front: &mut P,
    other: &mut M,
) -> Result<(), DeviceError>
    requires place { gate + version_at + length (P.rest front.old) ≤ D.capacity disk.old }
    requires addressable { gate + version_at + length (P.rest front.old) < 2 ^ 64 }

    // A stop at any moment leaves what was there, whatever is written.
    ensures { IsStep D.Disk M.passes disk.old disk.new other.old other.new result (λ old new.
        (v : Version) (form : Form) (start generation : ℕ) (snapshot : List ℕ) (payloads : List (List ℕ))
        → length (P.rest front.old) < form.area
        → HoldsAt v form start gate generation snapshot payloads old.now → IsClosed gate old.now.bytes
        → Leaves old new (Holds v form snapshot payloads)
        (λ state. HoldsAt v form start gate generation snapshot payloads state × IsClosed gate state.bytes
        × StandsAt (gate + version_at) (P.rest front.old) state.bytes) result) }
{
    write_produced(disk, gate + VERSION_AT, front, other)?;
    Ok(())
}

// Opens the other area's gate: from then on it is active.
fn switch<D: Disk, M: Meanwhile>(
    disk: &mut D,
    gate: usize,
    other: &mut M,
) -> Result<(), DeviceError>
    requires { gate < D.capacity disk.old }

    // A stop at any moment leaves what was there, or the new snapshot alone.
    ensures switches { IsStep D.Disk M.passes disk.old disk.new other.old other.new result (λ old new.
        (v w : Version) (form : Form) (start generation : ℕ) (snapshot next : List ℕ) (payloads : List (List ℕ))
        → generation + 1 < 2 ^ 64 → length next < 2 ^ 32 → least_area w form.bounds ≤ form.area → head_size + length next < form.area
        → HoldsAt v form start gate generation snapshot payloads old.now
        → StandsAt (gate + version_at) (area_front w (generation + 1) next ++ closed_gate ∷ []) old.now.bytes
        → Leaves old new (λ image. Holds v form snapshot payloads image ⊎ Holds w form next [] image)
        (RecoversToParts w form gate start (generation + 1) (head_size + length next) true next []) result) }

    // The gate is written at most once, and nothing else is.
    ensures once { D.follows_crash_model disk.new → WritesOnce gate gate_size (D.trace disk.old) (D.trace disk.new) }
{
    write_through(disk, gate, &[OPEN], other)?;
    Ok(())
}

/// Puts a snapshot of the next generation, in either version, into the other area, which then is active.
pub fn replace<D: Disk, P: Producer, M: Meanwhile>(
    disk: &mut D,
    gate: usize,
    is_below: bool,
    front: &mut P,
    other: &mut M,
) -> Result<(), DeviceError>
    requires place { gate + version_at + length (P.rest front.old) ≤ D.capacity disk.old }
    requires addressable { gate + version_at + length (P.rest front.old) < 2 ^ 64 }
    ensures { IsStep D.Disk M.passes disk.old disk.new other.old other.new result (λ old new.
        (v w : Version) (form : Form) (start generation end : ℕ) (snapshot next : List ℕ) (payloads : List (List ℕ))
        → generation + 1 < 2 ^ 64 → length next < 2 ^ 32 → least_area w form.bounds ≤ form.area → head_size + length next < form.area
        → P.rest front.old ≡ area_front w (generation + 1) next ++ closed_gate ∷ []
        → RecoversToParts v form start gate generation end is_below snapshot payloads old.now
        → Replaces v w form start gate generation snapshot next payloads old new result) }
{
    close(disk, gate, is_below, other)?;
    fill(disk, gate, front, other)?;
    switch(disk, gate, other)?;
    Ok(())
}
