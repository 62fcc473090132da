// The limits of patterns and their files.

// Points of a pattern besides its end point.
pub const POINTS: usize = 255;
// Bytes of all texts of a pattern.
pub const TEXT_BYTES: usize = 1024;
// Expressions that stand together while a file is read.
pub const STANDING: usize = 64;
// Bytes of a pattern file.
pub const FILE_BYTES: usize = 8192;
// The largest number that a pattern file may hold.
pub const LARGEST_NUMBER: u32 = 65535;
