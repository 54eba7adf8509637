//! Settings of the compiler.

ghost use Rattle.std.specs.Prelude.{◌≡◌, Some};
ghost use Rattle.std.specs.Option.{option_or};

use rx_base::Direction;

/// Settings of the compiler. A setting that isn't set has its default.
#[derive(Clone, Debug, Default, Drop)]
pub struct Config {
    reverse: Option<bool>,
    utf8: Option<bool>,
    nfa_size_limit: Option<Option<usize>>,
    line_terminator: Option<u8>,
}

impl Config {
    ghost use Rattle.rx_expr.specs.Settings.{asked, nothing_asked, settled, overwritten, is_reverse};

    /// Settings of which none is set.
    pub fn new() -> Config
        ensures { asked result ≡ nothing_asked }
    {
        Config {
            reverse: None,
            utf8: None,
            nfa_size_limit: None,
            line_terminator: None,
        }
    }

    /// Whether the NFA reads the haystack in reverse. Off by default.
    pub fn reverse(mut self, yes: bool) -> Config
        ensures { asked result ≡ record (asked self) { reverse = Some yes } }
    {
        self.reverse = Some(yes);
        self
    }

    /// UTF-8 mode: whether searches pass over matches that split a character. On by default.
    pub fn utf8(mut self, yes: bool) -> Config
        ensures { asked result ≡ record (asked self) { is_utf8 = Some yes } }
    {
        self.utf8 = Some(yes);
        self
    }

    /// The most bytes that the states may take, at 40 bytes a state. `None`, the default, is no limit.
    pub fn nfa_size_limit(mut self, bytes: Option<usize>) -> Config
        ensures { asked result ≡ record (asked self) { size_limit = Some bytes } }
    {
        self.nfa_size_limit = Some(bytes);
        self
    }

    /// The line terminator of the line assertions. `\n` by default.
    pub fn line_terminator(mut self, byte: u8) -> Config
        ensures { asked result ≡ record (asked self) { line_terminator = Some byte } }
    {
        self.line_terminator = Some(byte);
        self
    }

    /// Whether the NFA reads the haystack in reverse.
    pub fn get_reverse(&self) -> bool
        ensures { result ≡ is_reverse (settled (asked self.now)).direction }
    {
        self.reverse.unwrap_or(false)
    }

    /// The direction in which the NFA reads the haystack.
    pub(crate) fn direction(&self) -> Direction
        ensures { result ≡ (settled (asked self.now)).direction }
    {
        if self.get_reverse() {
            Direction::Reverse
        } else {
            Direction::Forward
        }
    }

    /// Whether searches pass over matches that split a character.
    pub fn get_utf8(&self) -> bool
        ensures { result ≡ (settled (asked self.now)).is_utf8 }
    {
        self.utf8.unwrap_or(true)
    }

    /// The most bytes that the states may take.
    pub fn get_nfa_size_limit(&self) -> Option<usize>
        ensures { result ≡ (settled (asked self.now)).size_limit }
    {
        self.nfa_size_limit.unwrap_or(None)
    }

    /// The line terminator.
    pub fn get_line_terminator(&self) -> u8
        ensures { result ≡ (settled (asked self.now)).line_terminator }
    {
        self.line_terminator.unwrap_or(b'\n')
    }

    /// These settings, overwritten by those that `later` sets.
    pub fn overwrite(&self, later: &Config) -> Config
        ensures { asked result ≡ overwritten (asked self.now) (asked later.now) }
    {
        Config {
            reverse: later.reverse.or(self.reverse),
            utf8: later.utf8.or(self.utf8),
            nfa_size_limit: later.nfa_size_limit.or(self.nfa_size_limit),
            line_terminator: later.line_terminator.or(self.line_terminator),
        }
    }
}
