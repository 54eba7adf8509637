//! Settings of the build of a dense table.

ghost use Rattle.std.specs.Prelude.{◌≡◌, ℕ, ◌≤◌, ◌==◌, if◌then◌else◌, true, false, IfOk, IfErr, IsErr, ◌↔◌, Some};
ghost use Rattle.rx_spec.specs.Bytes.{contains};

use rx_base::{ByteSet, MatchKind, StartKind};
use thiserror::Error;

/// Settings for building a dense table. A setting that isn't set has its default.
#[derive(Clone, Debug, Default, Drop)]
pub struct Config {
    accelerate: Option<bool>,
    minimize: Option<bool>,
    match_kind: Option<MatchKind>,
    start_kind: Option<StartKind>,
    pattern_starts: Option<bool>,
    byte_classes: Option<bool>,
    unicode_word: Option<bool>,
    quit: Option<ByteSet>,
    mark_starts: Option<bool>,
    dfa_size_limit: Option<Option<usize>>,
    determinize_size_limit: Option<Option<usize>>,
}

/// The error of [`Config::quit`]: the byte is at least 0x80, and `unicode_word_boundary` needs it as a quit byte.
#[derive(Clone, Copy, Debug, Error)]
#[error("the byte {byte:#04x} stays a quit byte while Unicode word boundaries are looked for by ASCII alone")]
pub struct QuitRefused {
    /// The byte.
    pub byte: u8,
}

impl Config {
    ghost use Rattle.rx_build.specs.Settings.{asked, nothing_asked, settled, overwritten, SetsQuit};

    /// Settings of which none is set.
    pub fn new() -> Config
        ensures { asked result ≡ nothing_asked }
    {
        Config {
            accelerate: None,
            minimize: None,
            match_kind: None,
            start_kind: None,
            pattern_starts: None,
            byte_classes: None,
            unicode_word: None,
            quit: None,
            mark_starts: None,
            dfa_size_limit: None,
            determinize_size_limit: None,
        }
    }

    /// Whether to accelerate states: from a state that only one to three bytes leave, none of them a space, a search
    /// skips to the next of these bytes. On by default.
    pub fn accelerate(mut self, yes: bool) -> Config
        ensures { asked result ≡ record (asked self) { accelerate = Some yes } }
    {
        self.accelerate = Some(yes);
        self
    }

    /// Whether to build the table with the fewest states. Off by default.
    pub fn minimize(mut self, yes: bool) -> Config
        ensures { asked result ≡ record (asked self) { minimize = Some yes } }
    {
        self.minimize = Some(yes);
        self
    }

    /// Which matches the table reports. `LeftmostFirst` by default: the preferred one of those that start leftmost.
    pub fn match_kind(mut self, kind: MatchKind) -> Config
        ensures { asked result ≡ record (asked self) { match_kind = Some kind } }
    {
        self.match_kind = Some(kind);
        self
    }

    /// For which modes the table has start states. `Both` by default: anchored and unanchored.
    pub fn start_kind(mut self, kind: StartKind) -> Config
        ensures { asked result ≡ record (asked self) { start_kind = Some kind } }
    {
        self.start_kind = Some(kind);
        self
    }

    /// Whether each pattern has start states of its own, for anchored searches of that pattern alone. Off by default.
    pub fn starts_for_each_pattern(mut self, yes: bool) -> Config
        ensures { asked result ≡ record (asked self) { pattern_starts = Some yes } }
    {
        self.pattern_starts = Some(yes);
        self
    }

    /// Whether bytes that the table treats alike share a column. On by default.
    pub fn byte_classes(mut self, yes: bool) -> Config
        ensures { asked result ≡ record (asked self) { byte_classes = Some yes } }
    {
        self.byte_classes = Some(yes);
        self
    }

    /// Whether Unicode word assertions are decided by ASCII word bytes. A search then quits at any byte from 0x80 on if
    /// an expression has such an assertion. Off by default: the build then returns `Unsupported` for such expressions,
    /// unless all these bytes are quit bytes.
    pub fn unicode_word_boundary(mut self, yes: bool) -> Config
        ensures { asked result ≡ record (asked self) { unicode_word = Some yes } }
    {
        self.unicode_word = Some(yes);
        self
    }

    /// Makes a byte a quit byte or an ordinary one. There are no quit bytes by default.
    ///
    /// Returns [`QuitRefused`] if it would make a byte from 0x80 on ordinary while `unicode_word_boundary` is on.
    pub fn quit(mut self, byte: u8, yes: bool) -> Result<Config, QuitRefused>
        ensures ok { IfOk result (λ c. SetsQuit (asked self) byte yes (asked c)) }
        ensures err { IfErr result (λ e. e.byte ≡ byte) }
        ensures refused { IsErr result ↔ ((settled (asked self)).unicode_word ≡ true) × (128 ≤ byte) × (yes ≡ false) }
    {
        if self.get_unicode_word_boundary() && byte >= 0x80 && !yes {
            return Err(QuitRefused { byte });
        }
        self.quit = Some(with_byte(self.get_quit_bytes(), byte, yes));
        Ok(self)
    }

    /// Sets all quit bytes at once. The quit bytes that `unicode_word_boundary` needs are added to them.
    pub fn quit_bytes(mut self, set: ByteSet) -> Config
        ensures { asked result ≡ record (asked self) { quit = Some set } }
    {
        self.quit = Some(set);
        self
    }

    /// Whether start states are marked, so that a search can recognize them. Off by default.
    pub fn specialize_start_states(mut self, yes: bool) -> Config
        ensures { asked result ≡ record (asked self) { mark_starts = Some yes } }
    {
        self.mark_starts = Some(yes);
        self
    }

    /// The most bytes that the table may take. `None`, the default, is no limit.
    pub fn dfa_size_limit(mut self, bytes: Option<usize>) -> Config
        ensures { asked result ≡ record (asked self) { dfa_size_limit = Some bytes } }
    {
        self.dfa_size_limit = Some(bytes);
        self
    }

    /// The most bytes that the construction's states may take. `None`, the default, is no limit.
    pub fn determinize_size_limit(mut self, bytes: Option<usize>) -> Config
        ensures { asked result ≡ record (asked self) { determinize_size_limit = Some bytes } }
    {
        self.determinize_size_limit = Some(bytes);
        self
    }

    /// Whether states are accelerated.
    pub fn get_accelerate(&self) -> bool
        ensures { result ≡ (settled (asked self.now)).accelerate }
    {
        self.accelerate.unwrap_or(true)
    }

    /// Whether the table has the fewest states.
    pub fn get_minimize(&self) -> bool
        ensures { result ≡ (settled (asked self.now)).minimize }
    {
        self.minimize.unwrap_or(false)
    }

    /// Which matches the table reports.
    pub fn get_match_kind(&self) -> MatchKind
        ensures { result ≡ (settled (asked self.now)).match_kind }
    {
        self.match_kind.unwrap_or(MatchKind::LeftmostFirst)
    }

    /// For which modes the table has start states.
    pub fn get_starts(&self) -> StartKind
        ensures { result ≡ (settled (asked self.now)).start_kind }
    {
        self.start_kind.unwrap_or(StartKind::Both)
    }

    /// Whether each pattern has start states of its own.
    pub fn get_starts_for_each_pattern(&self) -> bool
        ensures { result ≡ (settled (asked self.now)).pattern_starts }
    {
        self.pattern_starts.unwrap_or(false)
    }

    /// Whether bytes that the table treats alike share a column.
    pub fn get_byte_classes(&self) -> bool
        ensures { result ≡ (settled (asked self.now)).byte_classes }
    {
        self.byte_classes.unwrap_or(true)
    }

    /// Whether Unicode word assertions are decided by ASCII word bytes.
    pub fn get_unicode_word_boundary(&self) -> bool
        ensures { result ≡ (settled (asked self.now)).unicode_word }
    {
        self.unicode_word.unwrap_or(false)
    }

    /// Whether a byte was set as a quit byte. The bytes that `unicode_word_boundary` adds don't count.
    pub fn get_quit(&self, byte: u8) -> bool
        ensures { result ≡ contains (settled (asked self.now)).quit byte }
    {
        self.get_quit_bytes().contains(byte)
    }

    /// Whether start states are marked.
    pub fn get_specialize_start_states(&self) -> bool
        ensures { result ≡ (settled (asked self.now)).mark_starts }
    {
        self.mark_starts.unwrap_or(false)
    }

    /// The most bytes that the table may take.
    pub fn get_dfa_size_limit(&self) -> Option<usize>
        ensures { result ≡ (settled (asked self.now)).dfa_size_limit }
    {
        self.dfa_size_limit.unwrap_or(None)
    }

    /// The most bytes that the construction's states may take.
    pub fn get_determinize_size_limit(&self) -> Option<usize>
        ensures { result ≡ (settled (asked self.now)).determinize_size_limit }
    {
        self.determinize_size_limit.unwrap_or(None)
    }

    /// The bytes that were set as quit bytes.
    pub fn get_quit_bytes(&self) -> ByteSet
        ensures { result ≡ (settled (asked self.now)).quit }
    {
        self.quit.unwrap_or(ByteSet::empty())
    }

    /// These settings, overwritten by those that `later` sets.
    pub fn overwrite(&self, later: &Config) -> Config
        ensures { asked result ≡ overwritten (asked self.now) (asked later.now) }
    {
        Config {
            accelerate: later.accelerate.or(self.accelerate),
            minimize: later.minimize.or(self.minimize),
            match_kind: later.match_kind.or(self.match_kind),
            start_kind: later.start_kind.or(self.start_kind),
            pattern_starts: later.pattern_starts.or(self.pattern_starts),
            byte_classes: later.byte_classes.or(self.byte_classes),
            unicode_word: later.unicode_word.or(self.unicode_word),
            quit: later.quit.or(self.quit),
            mark_starts: later.mark_starts.or(self.mark_starts),
            dfa_size_limit: later.dfa_size_limit.or(self.dfa_size_limit),
            determinize_size_limit: later.determinize_size_limit.or(self.determinize_size_limit),
        }
    }
}

/// The set with a byte added or removed.
fn with_byte(mut set: ByteSet, byte: u8, yes: bool) -> ByteSet
    ensures { (other : ℕ) → contains result other ≡ (if other == byte then yes else contains set other) }
{
    if yes {
        set.add(byte);
    } else {
        set.remove(byte);
    }
    set
}
