//! The version of the command, which stands here alone, and the logic that it was proved with.

/// The version, and the logic that `rt version` tells of the toolchain that it was proved with. Toolchains of
/// one logic prove the same.
pub const VERSION: &str = "0.1.0 (proved with logic dac8208d650f15bf)";
