// The numbers of the data, as document 01's table, W1, W3 and W6 have them. Where a row has several, the first.
pub const CYCLE_TIME: usize = 0;

pub const FUNCTIONS: usize = 1;

pub const STANDSTILL_TOLERANCE: usize = 2;

pub const SG_LIMIT: usize = 3;

pub const SG_STOP: usize = 7;

pub const SE1_MINUS: usize = 11;

pub const SE1_PLUS: usize = 12;

pub const SE2_MINUS: usize = 13;

pub const SE2_PLUS: usize = 14;

pub const SE_STOP: usize = 15;

pub const CAM: usize = 16;

pub const CAM_TOLERANCE: usize = 24;

pub const NX: usize = 25;

pub const ALLOWED_DIFFERENCE: usize = 26;

pub const DELAY: usize = 27;

pub const ALLOWED_INPUT_DIFFERENCE: usize = 28;

pub const TIME_C: usize = 29;

pub const TIME_D: usize = 30;

pub const TIME_E: usize = 31;

pub const TIME_B: usize = 32;

pub const SHUTDOWN_SPEED: usize = 33;

pub const TIME_F: usize = 34;

pub const OVERRIDE: usize = 35;

pub const NUMERATOR: usize = 51;

pub const DENOMINATOR: usize = 59;

pub const NX_HYSTERESIS: usize = 67;

pub const NX_FILTER: usize = 68;

pub const DIRECTION_TOLERANCE: usize = 69;

pub const DIRECTION_DELAY: usize = 70;

pub const DIRECTION_STOP: usize = 71;
