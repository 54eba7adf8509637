//! Tables with as few rows as can be.

ghost use Rattle.rx_meaning.specs.Least.{LeastIsOne, Leastness, PowerGives, PowerIsReached, ReducedIsLeast};

/// Where every row but dead and quit is reached and any two rows are told apart, no table with the same
/// labels has fewer rows.
pub fn leastness()
    ensures tables { Leastness }
    ensures builds { ReducedIsLeast }
{}

/// There is one least number of rows.
pub fn least_is_one()
    ensures { LeastIsOne }
{}

/// A table that is a build's powerset machine gives the build, and its rows are reached.
pub fn power_table()
    ensures gives { PowerGives }
    ensures reached { PowerIsReached }
{}
