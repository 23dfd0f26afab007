//! What this program is made from. This file is written by packaging/digest.

/// The digest of the sources.
pub const SOURCES: &str = "ef24fc8b06aa0171c31e8d96be344f262c345c3c5fad0c2d89cd0e4a6bf7a024";

/// The toolchain, as it names itself.
pub const TOOLCHAIN: &str = "rattle-kit-13f logic dac8208d650f15bf";
