//! The bytes after an area's gate and before its snapshot.

ghost use Rattle.std.specs.Prelude.{◌≡◌, ◌∷◌, ◌++◌, IfSome, IsNone};
ghost use Rattle.std.specs.Int.{to_be_bytes, w32, w64};
ghost use Rattle.turn_record.specs.declared.version.Version.{Version};
ghost use Rattle.turn_store.specs.Areas.{version_byte};

use crate::layout::FRONT_SIZE;
use turn_record::Version;

/// The byte of a version.
pub fn version_byte(version: Version) -> u8
    ensures { result ≡ version_byte version }
{
    match version {
        Version::V1 => 1,
        Version::V2 => 2,
    }
}

/// The version of which this is the byte.
pub fn version_of(byte: u8) -> Option<Version>
    ensures some { IfSome result (λ v. byte ≡ version_byte v) }
    ensures none { IsNone result → (v : Version) → byte ≡ version_byte v → ⊥ }
{
    match byte {
        1 => Some(Version::V1),
        2 => Some(Version::V2),
        _ => None,
    }
}

/// The version, the generation and the snapshot's length.
pub fn area_head(version: Version, generation: u64, size: u32) -> [u8; FRONT_SIZE]
    ensures { result ≡ version_byte version ∷ (to_be_bytes w64 generation ++ to_be_bytes w32 size) }
{
    let v = version_byte(version);
    let g = generation.to_be_bytes();
    let n = size.to_be_bytes();
    [
        v, g[0], g[1], g[2], g[3], g[4], g[5], g[6], g[7], n[0], n[1], n[2], n[3],
    ]
}
