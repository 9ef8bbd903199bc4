// Stop ranks, with their numbers and the data of their times as constants.
#![tactic(auto)]

ghost use Rattle.std.specs.Prelude.{◌≡◌};
ghost use Rattle.rank.specs.Rank.{rank_number, rank_from, stronger_of, time_of};

use machine_data::{Values, numbers};

// The order is that of strength.
#[derive(Clone, Copy, PartialEq, Eq, PartialOrd, Ord)]
pub enum Rank {
    None,
    E,
    D,
    C,
    B,
    A,
}

// The rank that a datum names; a number past 5, which no datum has, is read as A.
impl From<u64> for Rank {
    ghost from_gives = { λ n r. r ≡ rank_from n };

    fn from(n: u64) -> Rank {
        match n {
            0 => Rank::None,
            1 => Rank::E,
            2 => Rank::D,
            3 => Rank::C,
            4 => Rank::B,
            _ => Rank::A,
        }
    }
}

impl From<Rank> for u8 {
    ghost from_gives = { λ r n. n ≡ rank_number r };

    fn from(rank: Rank) -> u8 {
        match rank {
            Rank::None => Rank::NUMBER_NONE,
            Rank::E => Rank::NUMBER_E,
            Rank::D => Rank::NUMBER_D,
            Rank::C => Rank::NUMBER_C,
            Rank::B => Rank::NUMBER_B,
            Rank::A => Rank::NUMBER_A,
        }
    }
}

impl Rank {
    // Constants and no bare numbers: document 01 has a rank carry its number and its time's datum as constants.
    pub const NUMBER_NONE: u8 = 0;

    pub const NUMBER_E: u8 = 1;

    pub const NUMBER_D: u8 = 2;

    pub const NUMBER_C: u8 = 3;

    pub const NUMBER_B: u8 = 4;

    pub const NUMBER_A: u8 = 5;

    pub const TIME_C: usize = numbers::TIME_C;

    pub const TIME_D: usize = numbers::TIME_D;

    pub const TIME_E: usize = numbers::TIME_E;

    pub const TIME_B: usize = numbers::TIME_B;

    pub fn stronger(self, other: Rank) -> Rank
        ensures { result ≡ stronger_of self other }
    {
        self.max(other)
    }

    // The time of a stop, in cycles. None and A have none.
    pub fn time(self, values: &Values) -> u32
        ensures { result ≡ time_of values.now self }
    {
        match self {
            Rank::None | Rank::A => 0,
            Rank::E => machine_data::cycles(values, Rank::TIME_E),
            Rank::D => machine_data::cycles(values, Rank::TIME_D),
            Rank::C => machine_data::cycles(values, Rank::TIME_C),
            Rank::B => machine_data::cycles(values, Rank::TIME_B),
        }
    }
}
