// The bounds of relay events and of the numbers of symbols. They stand here once: all else is written in terms of them.

// The last kind of a relay event: kinds run from 0.
pub const LAST_KIND: u8 = 15;

// What is added to a value so that the least becomes 0.
pub const OFFSET: i32 = 2048;

// How many values a kind may have.
pub const VALUES_PER_KIND: u32 = 4096;

// The least value of a relay event, -2,048.
pub const LEAST_VALUE: i16 = (-OFFSET) as i16;

// The greatest value of a relay event, 2,047.
pub const GREATEST_VALUE: i16 = (VALUES_PER_KIND as i32 - OFFSET - 1) as i16;

// The largest number that a symbol may have, 65,535: that of the last kind with the greatest value.
pub const LARGEST_NUMBER: u32 = LAST_KIND as u32 * VALUES_PER_KIND + (VALUES_PER_KIND - 1);
