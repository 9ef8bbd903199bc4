// The numbers that the head of a list may hold, each the number of its data.
pub const BASE: usize = 51;

// From here on a list has the gears' ratios.
pub const GEARS: usize = 67;

// From here on it has the hysteresis and the filter of n<nx.
pub const NX: usize = 69;

// From here on it has the tolerance, the delay and the stop of safe direction.
pub const DIRECTION: usize = 72;
