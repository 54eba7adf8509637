//! Why an image can't be read or written.

ghost use Rattle.std.specs.Prelude.{◌≡◌};
ghost use Rattle.rx_wire.specs.Kinds.{Kind, kind_of};

use rx_base::IdError;
use std::alloc::AllocError;
use std::marker::Model;
use thiserror::Error;

/// The destination is too short. Nothing was written.
#[derive(Debug, Drop, Error)]
#[error("destination buffer is too small to write {what}")]
pub struct SerializeError {
    /// The field or part that doesn't fit.
    pub what: &'static str,
}

/// Why an image is rejected: the first test that it fails.
///
/// Contracts see it as its kind, without the texts that name the test or the field.
#[derive(Debug, Drop, Error)]
#[error("{kind}")]
pub struct DeserializeError {
    kind: DeserializeErrorKind,
}

impl Model for DeserializeError {
    ghost use Rattle.rx_wire.specs.Kinds.{Kind, kind_of};

    ghost Value = { Kind };

    ghost view = { λ e. kind_of e.kind };
}

impl DeserializeError {
    /// The error of this kind.
    pub fn new(kind: DeserializeErrorKind) -> DeserializeError
        ensures { result ≡ kind_of kind }
    {
        DeserializeError { kind }
    }

    /// The kind.
    pub fn kind(&self) -> &DeserializeErrorKind
        ensures { kind_of result.now ≡ self.now }
    {
        &self.kind
    }

    /// The error of a test without a kind of its own.
    pub fn generic(msg: &'static str) -> DeserializeError
        ensures { result ≡ Kind.Generic }
    {
        DeserializeError::new(DeserializeErrorKind::Generic { msg })
    }

    /// The error of a field that doesn't fit the bytes that are left.
    pub fn buffer_too_small(what: &'static str) -> DeserializeError
        ensures { result ≡ Kind.BufferTooSmall }
    {
        DeserializeError::new(DeserializeErrorKind::BufferTooSmall { what })
    }
}

impl From<AllocError> for DeserializeError {
    ghost from_gives = { λ _ e. e ≡ Kind.Memory };

    fn from(_error: AllocError) -> DeserializeError {
        DeserializeError::new(DeserializeErrorKind::Memory)
    }
}

/// The kinds of errors of readers.
#[derive(Debug, Drop, Error)]
pub enum DeserializeErrorKind {
    /// A test without a kind of its own failed.
    #[error("{msg}")]
    Generic {
        /// Names the test.
        msg: &'static str,
    },
    /// A field doesn't fit the bytes that are left.
    #[error("buffer is too small to read {what}")]
    BufferTooSmall {
        /// Names the field.
        what: &'static str,
    },
    /// The version isn't the expected one.
    #[error("unsupported version: expected version {expected} but found version {found}")]
    VersionMismatch {
        /// The expected version.
        expected: u32,
        /// The version of the image.
        found: u32,
    },
    /// The word that marks the byte order has another value.
    #[error("endianness mismatch: expected 0x{expected:X} but got 0x{found:X}. (Are you trying to load an object \
             serialized with a different endianness?)")]
    EndianMismatch {
        /// The word of little endian images, 0xFEFF.
        expected: u32,
        /// The word of the image, read as little endian.
        found: u32,
    },
    /// The label is another one.
    #[error("label mismatch: start of serialized object should contain a NUL terminated \"{expected}\" label, but \
             a different label was found")]
    LabelMismatch {
        /// The expected label.
        expected: &'static str,
    },
    /// A number is above the greatest id of a pattern.
    #[error("failed to read pattern ID for {what}: {err}")]
    PatternID {
        /// The number.
        err: IdError,
        /// Names the field.
        what: &'static str,
    },
    /// A number is above the greatest id of a state.
    #[error("failed to read state ID for {what}: {err}")]
    StateID {
        /// The number.
        err: IdError,
        /// Names the field.
        what: &'static str,
    },
    /// Memory ran out. The readers of this crate never return it, since they allocate nothing.
    #[error("out of memory")]
    Memory,
}
