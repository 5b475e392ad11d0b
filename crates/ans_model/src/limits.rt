//! The limits of a file and of its screen.

/// The largest file, in bytes (profile).
pub const MAX_FILE: usize = 16_777_216;

/// The largest width, in columns (profile).
pub const MAX_WIDTH: usize = 1024;

/// The most lines that a record may state (profile).
pub const MAX_LINES: usize = 8192;

/// The most parameters of a sequence (profile).
pub const MAX_PARAMETERS: usize = 16;
