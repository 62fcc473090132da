// The limit of a run. The specs have the same number in Limits.

// How many symbols a run may read.
pub const LENGTH_LIMIT: u32 = 4_294_967_295;
