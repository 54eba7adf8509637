//! Numbers of rows and of patterns.

ghost use Rattle.std.specs.Prelude.{◌≡◌, ℕ, ◌<◌, ◌≤◌, IfOk, IfErr};
ghost use Rattle.rx_spec.specs.Causes.{max_id};

use std::marker::Model;

/// The greatest number of an id, 2^31 - 2, and how many ids there are.
const MAX: u32 = 2147483646;

const LIMIT: usize = 2147483647;

/// The number of a row of an NFA or of a table, from 0 to [`StateID::MAX`].
#[derive(Clone, Copy, Debug, Default, PartialEq, Eq, PartialOrd, Ord, Hash)]
pub struct StateID {
    index: u32,
}

impl Model for StateID {
    ghost use Rattle.std.specs.Prelude.{ℕ, ◌≤◌};
    ghost use Rattle.rx_spec.specs.Causes.{max_id};

    ghost Value = { ℕ };

    ghost view = { λ id. id.index };

    ghost invariant = { λ id. id.index ≤ max_id };

    ghost inverse = { λ n. record { index = n } };
}

const _: () = prove!(StateID::SIZE == 4 && PatternID::SIZE == 4);

impl StateID {
    /// The greatest id, 2^31 - 2.
    pub const MAX: StateID = StateID { index: MAX };
    /// How many ids there are.
    pub const LIMIT: usize = LIMIT;
    /// The bytes that an id takes in an image.
    pub const SIZE: usize = 4;
    /// The id 0.
    pub const ZERO: StateID = StateID { index: 0 };

    /// The id of a number, which is refused above [`StateID::MAX`].
    pub fn new(n: usize) -> Result<StateID, IdError>
        ensures ok { IfOk result (λ id. (id ≡ n) × (n ≤ max_id)) }
        ensures err { IfErr result (λ e. (e.attempted ≡ n) × (max_id < n)) }
    {
        if n >= LIMIT {
            return Err(IdError {
                attempted: n as u64,
            });
        }
        Ok(StateID { index: n as u32 })
    }

    /// The id of a number, which must be at most [`StateID::MAX`].
    #[inline(always)]
    pub fn must(n: usize) -> StateID
        requires { n ≤ max_id }
        ensures { result ≡ n }
    {
        StateID { index: n as u32 }
    }

    /// The number.
    #[inline(always)]
    pub fn as_usize(self) -> usize
        ensures value { result ≡ self }
        ensures bound { result ≤ max_id }
    {
        self.index as usize
    }

    /// The number.
    #[inline(always)]
    pub fn as_u32(self) -> u32
        ensures value { result ≡ self }
        ensures bound { result ≤ max_id }
    {
        self.index
    }
}

/// The number of a pattern: its place in the list of expressions, from 0 to [`PatternID::MAX`].
#[derive(Clone, Copy, Debug, Default, PartialEq, Eq, PartialOrd, Ord, Hash)]
pub struct PatternID {
    index: u32,
}

impl Model for PatternID {
    ghost use Rattle.std.specs.Prelude.{ℕ, ◌≤◌};
    ghost use Rattle.rx_spec.specs.Causes.{max_id};

    ghost Value = { ℕ };

    ghost view = { λ id. id.index };

    ghost invariant = { λ id. id.index ≤ max_id };

    ghost inverse = { λ n. record { index = n } };
}

impl PatternID {
    /// The greatest id, 2^31 - 2.
    pub const MAX: PatternID = PatternID { index: MAX };
    /// How many ids there are.
    pub const LIMIT: usize = LIMIT;
    /// The bytes that an id takes in an image.
    pub const SIZE: usize = 4;
    /// The id 0.
    pub const ZERO: PatternID = PatternID { index: 0 };

    /// The id of a number, which is refused above [`PatternID::MAX`].
    pub fn new(n: usize) -> Result<PatternID, IdError>
        ensures ok { IfOk result (λ id. (id ≡ n) × (n ≤ max_id)) }
        ensures err { IfErr result (λ e. (e.attempted ≡ n) × (max_id < n)) }
    {
        if n >= LIMIT {
            return Err(IdError {
                attempted: n as u64,
            });
        }
        Ok(PatternID { index: n as u32 })
    }

    /// The id of a number, which must be at most [`PatternID::MAX`].
    #[inline(always)]
    pub fn must(n: usize) -> PatternID
        requires { n ≤ max_id }
        ensures { result ≡ n }
    {
        PatternID { index: n as u32 }
    }

    /// The number.
    #[inline(always)]
    pub fn as_usize(self) -> usize
        ensures value { result ≡ self }
        ensures bound { result ≤ max_id }
    {
        self.index as usize
    }

    /// The number.
    #[inline(always)]
    pub fn as_u32(self) -> u32
        ensures value { result ≡ self }
        ensures bound { result ≤ max_id }
    {
        self.index
    }
}

/// A number that is above the greatest id.
#[derive(Clone, Debug, Drop, thiserror::Error)]
#[error("{attempted} is above the greatest id, 2147483646")]
pub struct IdError {
    /// The number.
    pub attempted: u64,
}
