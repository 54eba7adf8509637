//! Worked examples: what is left to report at places of a small table, which the definitions compute.

ghost use Rattle.rx_stream.specs.Examples.{AllRemains, EndRemains, NothingAfterQuit, NothingBeforeEnd, NowOfStart};
ghost use Rattle.rx_stream.specs.Examples.{PendingAtClose, PendingNow, PendingRemains, QuitTold, QuitToldNow};
ghost use Rattle.rx_stream.specs.Examples.{ToldOfWhole};

/// From the beginning of a text.
pub fn whole_texts()
    ensures remaining { AllRemains }
    ensures now { NowOfStart }
    ensures whole { ToldOfWhole }
{}

/// From a match state with a pattern that isn't reported yet.
pub fn pending_patterns()
    ensures remaining { PendingRemains }
    ensures now { PendingNow }
    ensures closed { PendingAtClose }
{}

/// After the end of input.
pub fn ends()
    ensures remaining { EndRemains }
    ensures now { NothingBeforeEnd }
{}

/// At a quit byte and after it.
pub fn quits()
    ensures remaining { QuitTold }
    ensures now { QuitToldNow }
    ensures after { NothingAfterQuit }
{}
