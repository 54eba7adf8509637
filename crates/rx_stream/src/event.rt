//! The events of a searcher.

ghost use Rattle.std.specs.Prelude.{◌≡◌, Some};

use rx_base::HalfMatch;

/// What a searcher reports of a text.
#[derive(Clone, Copy, Debug, PartialEq, Eq)]
pub enum StreamEvent {
    /// A match, with its pattern and the offset of its end.
    Match(HalfMatch),
    /// A quit byte. Nothing is reported after it.
    Quit {
        /// The byte.
        byte: u8,
        /// Its offset in the text.
        offset: usize,
    },
}

/// The result of `feed`.
#[derive(Clone, Copy, Debug, PartialEq, Eq)]
pub struct Fed {
    /// The place in the piece where the next call goes on.
    pub used: usize,
    /// The next event, if the piece decides one.
    pub event: Option<StreamEvent>,
}

impl Fed {
    /// A result with an event.
    #[inline(always)]
    pub(crate) fn with_event(used: usize, event: StreamEvent) -> Fed
        ensures { result ≡ record { used = used; event = Some event } }
    {
        Fed {
            used,
            event: Some(event),
        }
    }
}
