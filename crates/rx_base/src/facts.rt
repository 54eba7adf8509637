//! What is known of the byte beside a place.

ghost use Rattle.std.specs.Prelude.{◌≡◌, ◌<◌, Some, None};
ghost use Rattle.rx_spec.specs.Bytes.{is_word};
ghost use Rattle.rx_spec.specs.Contexts.{no_facts, facts_of, unit_facts, start_facts, facts_read};
ghost use Rattle.rx_spec.specs.Contexts.{both, either_of, holds_by};
ghost use Rattle.rx_base.specs.FactBits.{bits_of, facts_with};
ghost use Rattle.rx_base.specs.Unit.{unit_number};

use crate::{Look, Start, Unit};
use std::marker::Model;

/// Facts of a neighbour of a place: as much of it as assertions ask for.
///
/// Contracts see it as the facts of the definitions.
#[derive(Clone, Copy, Debug, PartialEq, Eq, PartialOrd, Ord, Hash)]
pub struct Facts {
    /// There is none: the place is an edge of the haystack.
    text: bool,
    /// It is the line terminator.
    line_terminator: bool,
    /// It is `\n`.
    lf: bool,
    /// It is `\r`.
    cr: bool,
    /// It is a word byte.
    word: bool,
}

impl Model for Facts {
    ghost use Rattle.rx_spec.specs.Contexts.{Facts as Known};

    ghost Value = { Known };

    ghost view = { λ f.
        record { text = f.text; line_terminator = f.line_terminator; lf = f.lf; cr = f.cr; word = f.word } };

    ghost inverse = { λ k.
        record { text = k.text; line_terminator = k.line_terminator; lf = k.lf; cr = k.cr; word = k.word } };
}

/// No fact.
const NONE: Facts = Facts {
    text: false,
    line_terminator: false,
    lf: false,
    cr: false,
    word: false,
};

/// What is known of the edge of the haystack.
const TEXT: Facts = Facts {
    text: true,
    line_terminator: false,
    lf: false,
    cr: false,
    word: false,
};

fn is_word_byte(byte: u8) -> bool
    ensures { result ≡ is_word byte }
{
    (48 <= byte && byte <= 57)
        || (65 <= byte && byte <= 90)
        || byte == 95
        || (97 <= byte && byte <= 122)
}

impl Facts {
    /// No fact at all.
    pub fn none() -> Facts
        ensures { result ≡ no_facts }
    {
        NONE
    }

    /// Those that are true of a byte, under a line terminator.
    pub fn of_byte(line_terminator: u8, byte: u8) -> Facts
        ensures { result ≡ facts_of line_terminator (Some byte) }
    {
        Facts {
            text: false,
            line_terminator: byte == line_terminator,
            lf: byte == 10,
            cr: byte == 13,
            word: is_word_byte(byte),
        }
    }

    /// Those that are true of a unit; the end mark is no byte.
    pub fn of_unit(line_terminator: u8, unit: Unit) -> Facts
        ensures { result ≡ unit_facts line_terminator (unit_number unit) }
    {
        match unit {
            Unit::Byte(byte) => Facts::of_byte(line_terminator, byte),
            Unit::Eoi => TEXT,
        }
    }

    /// What is known in a start context.
    pub fn of_start(line_terminator: u8, start: Start) -> Facts
        ensures { result ≡ start_facts line_terminator start }
    {
        match start {
            Start::NonWordByte => NONE,
            Start::WordByte => Facts { word: true, ..NONE },
            Start::Text => TEXT,
            Start::LineLF => Facts::of_byte(line_terminator, 10),
            Start::LineCR => Facts::of_byte(line_terminator, 13),
            Start::CustomLineTerminator => Facts::of_byte(line_terminator, line_terminator),
        }
    }

    /// Those that an assertion asks for.
    pub fn asked_by(look: Look) -> Facts
        ensures { result ≡ facts_read look }
    {
        match look {
            Look::Start | Look::End => TEXT,
            Look::StartLF | Look::EndLF => Facts {
                line_terminator: true,
                ..TEXT
            },
            Look::StartCRLF | Look::EndCRLF => Facts {
                lf: true,
                cr: true,
                ..TEXT
            },
            _ => Facts { word: true, ..NONE },
        }
    }

    /// Those of both.
    pub fn intersect(self, other: Facts) -> Facts
        ensures { result ≡ both self other }
    {
        Facts {
            text: self.text && other.text,
            line_terminator: self.line_terminator && other.line_terminator,
            lf: self.lf && other.lf,
            cr: self.cr && other.cr,
            word: self.word && other.word,
        }
    }

    /// Those of either.
    pub fn union(self, other: Facts) -> Facts
        ensures { result ≡ either_of self other }
    {
        Facts {
            text: self.text || other.text,
            line_terminator: self.line_terminator || other.line_terminator,
            lf: self.lf || other.lf,
            cr: self.cr || other.cr,
            word: self.word || other.word,
        }
    }

    /// A number that tells them apart from all others, below 32: a bit for each fact.
    pub fn to_bits(self) -> u8
        ensures value { result ≡ bits_of self }
        ensures bound { result < 32 }
        ensures back { facts_with result ≡ self }
    {
        u8::from(self.text)
            + 2 * u8::from(self.line_terminator)
            + 4 * u8::from(self.lf)
            + 8 * u8::from(self.cr)
            + 16 * u8::from(self.word)
    }

    /// The facts whose bits a number has, as [`Facts::to_bits`] sets them.
    pub fn from_bits(bits: u8) -> Facts
        ensures { result ≡ facts_with bits }
    {
        Facts {
            text: bits % 2 == 1,
            line_terminator: bits / 2 % 2 == 1,
            lf: bits / 4 % 2 == 1,
            cr: bits / 8 % 2 == 1,
            word: bits / 16 % 2 == 1,
        }
    }

    /// Whether an assertion holds between two neighbours of which these facts are known.
    pub fn decide(look: Look, before: Facts, after: Facts) -> bool
        ensures { result ≡ holds_by look before after }
    {
        match look {
            Look::Start => before.text,
            Look::End => after.text,
            Look::StartLF => before.text || before.line_terminator,
            Look::EndLF => after.text || after.line_terminator,
            Look::StartCRLF => before.text || before.lf || (before.cr && !after.lf),
            Look::EndCRLF => after.text || after.cr || (after.lf && !before.cr),
            Look::WordAscii | Look::WordUnicode => before.word != after.word,
            Look::WordAsciiNegate | Look::WordUnicodeNegate => before.word == after.word,
            Look::WordStartAscii | Look::WordStartUnicode => after.word && !before.word,
            Look::WordEndAscii | Look::WordEndUnicode => before.word && !after.word,
            Look::WordStartHalfAscii | Look::WordStartHalfUnicode => !before.word,
            Look::WordEndHalfAscii | Look::WordEndHalfUnicode => !after.word,
        }
    }
}
