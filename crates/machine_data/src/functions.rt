// The bits of datum 1: the functions of a channel. Numbers and no enum: the paper knows a function by its bit alone.
pub const SBH_SG: u32 = 0;

pub const SE: u32 = 1;

pub const CAMS: u32 = 2;

pub const NX: u32 = 3;

pub const EXTERNAL_STOPS: u32 = 4;

pub const DIRECTION: u32 = 5;
