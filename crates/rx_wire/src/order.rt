//! Byte orders for reading, and numbers in either order.

ghost use Rattle.std.specs.Prelude.{◌≡◌, IfOk, drop};
ghost use Rattle.std.specs.Int.{w16, w32, w128};
ghost use Rattle.rx_wire.specs.Kinds.{GivesExactly, Kind};
ghost use Rattle.rx_wire.specs.Fields.{id_at, number, number_at};
ghost use Rattle.rx_wire.specs.Heads.{version_at};

use crate::error::{DeserializeError, DeserializeErrorKind};
use rx_base::{PatternID, StateID};

/// The byte order of an image's numbers.
#[derive(Clone, Copy, Debug, PartialEq, Eq)]
pub enum Order {
    /// The lowest byte first.
    Little,
    /// The highest byte first.
    Big,
}

/// Numbers of bytes.
impl Order {
    /// The number of two bytes.
    #[inline(always)]
    pub fn u16_from_bytes(self, bytes: [u8; 2]) -> u16
        ensures { result ≡ number self w16 bytes }
    {
        match self {
            Order::Little => u16::from_le_bytes(bytes),
            Order::Big => u16::from_be_bytes(bytes),
        }
    }

    /// The number of four bytes.
    #[inline(always)]
    pub fn u32_from_bytes(self, bytes: [u8; 4]) -> u32
        ensures { result ≡ number self w32 bytes }
    {
        match self {
            Order::Little => u32::from_le_bytes(bytes),
            Order::Big => u32::from_be_bytes(bytes),
        }
    }

    /// The number of 16 bytes.
    #[inline(always)]
    pub fn u128_from_bytes(self, bytes: [u8; 16]) -> u128
        ensures { result ≡ number self w128 bytes }
    {
        match self {
            Order::Little => u128::from_le_bytes(bytes),
            Order::Big => u128::from_be_bytes(bytes),
        }
    }
}

/// Splits a field off the front of some bytes. Returns it with the bytes after it.
impl Order {
    /// A number of two bytes, and the bytes after it.
    #[tactic(auto, unfolding(crate::specs::Fields::number_at))]
    pub fn split_u16<'a>(
        self,
        bytes: &'a [u8],
        what: &'static str,
    ) -> Result<(u16, &'a [u8]), DeserializeError>
        ensures { GivesExactly (λ x. (x.0, x.1.now)) result (number_at self w16 bytes.now) }
    {
        if bytes.len() < 2 {
            return Err(DeserializeError::buffer_too_small(what));
        }
        let (front, rest) = bytes.split_at(2);
        Ok((self.u16_from_bytes([front[0], front[1]]), rest))
    }

    /// A number of four bytes, and the bytes after it.
    #[tactic(auto, unfolding(crate::specs::Fields::number_at))]
    pub fn split_u32<'a>(
        self,
        bytes: &'a [u8],
        what: &'static str,
    ) -> Result<(u32, &'a [u8]), DeserializeError>
        ensures { GivesExactly (λ x. (x.0, x.1.now)) result (number_at self w32 bytes.now) }
    {
        if bytes.len() < 4 {
            return Err(DeserializeError::buffer_too_small(what));
        }
        let (front, rest) = bytes.split_at(4);
        Ok((
            self.u32_from_bytes([front[0], front[1], front[2], front[3]]),
            rest,
        ))
    }

    /// A number of 16 bytes, and the bytes after it.
    #[tactic(auto, unfolding(crate::specs::Fields::number_at))]
    pub fn split_u128<'a>(
        self,
        bytes: &'a [u8],
        what: &'static str,
    ) -> Result<(u128, &'a [u8]), DeserializeError>
        ensures { GivesExactly (λ x. (x.0, x.1.now)) result (number_at self w128 bytes.now) }
    {
        if bytes.len() < 16 {
            return Err(DeserializeError::buffer_too_small(what));
        }
        let (front, rest) = bytes.split_at(16);
        let mut number = [0; 16];
        number.copy_from_slice(front);
        Ok((self.u128_from_bytes(number), rest))
    }

    /// The id of a state, and the bytes after it.
    #[tactic(auto, unfolding(crate::specs::Fields::id_at))]
    pub fn split_state_id<'a>(
        self,
        bytes: &'a [u8],
        what: &'static str,
    ) -> Result<(StateID, &'a [u8]), DeserializeError>
        ensures { GivesExactly (λ x. (x.0, x.1.now)) result (id_at Kind.StateID self bytes.now) }
    {
        let (number, rest) = self.split_u32(bytes, what)?;
        match StateID::new(number as usize) {
            Ok(id) => Ok((id, rest)),
            Err(err) => Err(DeserializeError::new(DeserializeErrorKind::StateID { err, what })),
        }
    }

    /// The id of a pattern, and the bytes after it.
    #[tactic(auto, unfolding(crate::specs::Fields::id_at))]
    pub fn split_pattern_id<'a>(
        self,
        bytes: &'a [u8],
        what: &'static str,
    ) -> Result<(PatternID, &'a [u8]), DeserializeError>
        ensures { GivesExactly (λ x. (x.0, x.1.now)) result (id_at Kind.PatternID self bytes.now) }
    {
        let (number, rest) = self.split_u32(bytes, what)?;
        match PatternID::new(number as usize) {
            Ok(id) => Ok((id, rest)),
            Err(err) => Err(DeserializeError::new(DeserializeErrorKind::PatternID { err, what })),
        }
    }

    /// The bytes after a version, which must be the expected one.
    #[tactic(auto, unfolding(crate::specs::Heads::version_at))]
    pub fn split_version<'a>(
        self,
        bytes: &'a [u8],
        expected: u32,
    ) -> Result<&'a [u8], DeserializeError>
        ensures { GivesExactly (λ rest. (expected, rest.now)) result (version_at expected self bytes.now) }
    {
        let (found, rest) = self.split_u32(bytes, "version")?;
        if found != expected {
            return Err(DeserializeError::new(DeserializeErrorKind::VersionMismatch {
                expected,
                found,
            }));
        }
        Ok(rest)
    }
}

/// Reads a field at the front of some bytes. Returns it with its size.
impl Order {
    /// A number of two bytes, and its size.
    #[tactic(auto, unfolding(crate::specs::Fields::number_at))]
    pub fn try_read_u16(
        self,
        slice: &[u8],
        what: &'static str,
    ) -> Result<(u16, usize), DeserializeError>
        ensures read { GivesExactly (λ x. (x.0, drop 2 slice.now)) result (number_at self w16 slice.now) }
        ensures size { IfOk result (λ x. x.1 ≡ 2) }
    {
        let (number, _) = self.split_u16(slice, what)?;
        Ok((number, 2))
    }

    /// A number of four bytes, and its size.
    #[tactic(auto, unfolding(crate::specs::Fields::number_at))]
    pub fn try_read_u32(
        self,
        slice: &[u8],
        what: &'static str,
    ) -> Result<(u32, usize), DeserializeError>
        ensures read { GivesExactly (λ x. (x.0, drop 4 slice.now)) result (number_at self w32 slice.now) }
        ensures size { IfOk result (λ x. x.1 ≡ 4) }
    {
        let (number, _) = self.split_u32(slice, what)?;
        Ok((number, 4))
    }

    /// A number of 16 bytes, and its size.
    #[tactic(auto, unfolding(crate::specs::Fields::number_at))]
    pub fn try_read_u128(
        self,
        slice: &[u8],
        what: &'static str,
    ) -> Result<(u128, usize), DeserializeError>
        ensures read { GivesExactly (λ x. (x.0, drop 16 slice.now)) result (number_at self w128 slice.now) }
        ensures size { IfOk result (λ x. x.1 ≡ 16) }
    {
        let (number, _) = self.split_u128(slice, what)?;
        Ok((number, 16))
    }

    /// The id of a state, and its size.
    #[tactic(auto, unfolding(crate::specs::Fields::id_at, crate::specs::Fields::number_at))]
    pub fn try_read_state_id(
        self,
        slice: &[u8],
        what: &'static str,
    ) -> Result<(StateID, usize), DeserializeError>
        ensures read { GivesExactly (λ x. (x.0, drop 4 slice.now)) result (id_at Kind.StateID self slice.now) }
        ensures size { IfOk result (λ x. x.1 ≡ 4) }
    {
        let (id, _) = self.split_state_id(slice, what)?;
        Ok((id, StateID::SIZE))
    }

    /// The id of a pattern, and its size.
    #[tactic(auto, unfolding(crate::specs::Fields::id_at, crate::specs::Fields::number_at))]
    pub fn try_read_pattern_id(
        self,
        slice: &[u8],
        what: &'static str,
    ) -> Result<(PatternID, usize), DeserializeError>
        ensures read { GivesExactly (λ x. (x.0, drop 4 slice.now)) result (id_at Kind.PatternID self slice.now) }
        ensures size { IfOk result (λ x. x.1 ≡ 4) }
    {
        let (id, _) = self.split_pattern_id(slice, what)?;
        Ok((id, PatternID::SIZE))
    }

    /// Reads a version, which must be the expected one. Returns its size.
    #[tactic(auto, unfolding(crate::specs::Heads::version_at, crate::specs::Fields::number_at))]
    pub fn read_version(self, slice: &[u8], expected: u32) -> Result<usize, DeserializeError>
        ensures read { GivesExactly (λ _. (expected, drop 4 slice.now)) result (version_at expected self slice.now) }
        ensures size { IfOk result (λ size. size ≡ 4) }
    {
        self.split_version(slice, expected)?;
        Ok(4)
    }
}
