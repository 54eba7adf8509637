//! Expressions: the syntax trees of patterns.

ghost use Rattle.std.specs.Prelude.{◌≡◌, ◌+◌, ◌-◌, ◌*◌, ◌^◌, ◌<◌, ◌≤◌, min as least, IfOk, IfErr, OnOk};

use crate::bounds::{check_bounds, repeated_rows};
use rx_base::{ByteSet, Look};
use std::alloc::{AllocError, Global};
use std::marker::Model;
use thiserror::Error;

/// The greatest depth of an expression. A leaf has depth 1.
const MAX_DEPTH: u32 = 200;

/// The cap on counts of NFA states. No NFA has more than this.
pub(crate) const ROWS_LIMIT: u64 = 1 << 31;

/// The syntax tree of a pattern.
///
/// Contracts see it as the expression of the definitions. Build it from its leaves up by the calls below, and look at
/// its parts by [`Expr::kind`].
#[cycle(expr)]
#[derive(Drop)]
pub struct Expr {
    node: Node,
}

/// A leaf, which takes no memory, or a form with parts.
#[cycle(expr)]
#[derive(Drop)]
enum Node {
    Empty,
    Class(ByteSet),
    Look(Look),
    Inner(Box<Inner>),
}

/// A form with parts, with what is often asked of it.
#[cycle(expr)]
#[derive(Drop)]
struct Inner {
    form: Form,
    /// The length in bytes of the shortest match, capped at 2^64 - 1.
    min_len: u64,
    /// The number of its NFA states, capped at [`ROWS_LIMIT`].
    rows: u32,
    depth: u32,
}

#[cycle(expr)]
#[derive(Drop)]
enum Form {
    Concat(Expr, Expr),
    Alternate(Expr, Expr),
    Repeat {
        min: u32,
        max: Option<u32>,
        greedy: bool,
        body: Expr,
    },
}

impl Model for Expr {
    ghost use Rattle.rx_spec.specs.Expressions.{Expression, depth};
    ghost use Rattle.rx_expr.specs.ExpressionCode.{expression_code};

    ghost Value = { Expression };

    ghost coded = { expression_code };

    ghost use Rattle.rx_expr.specs.Expr.{node_of, IsSound};

    ghost view = { λ e. node_of e.node };

    ghost invariant = { λ e. IsSound e.node };

    ghost size = { depth };

    ghost use Rattle.rx_expr.specs.ExprFalls.{node_falls};

    ghost size_decreases = { λ a h. node_falls a.node };
}

/// An expression, one level deep.
#[derive(Clone, Copy)]
pub enum ExprKind<'a> {
    /// Matches the empty string.
    Empty,
    /// Matches one byte of a set.
    Class(ByteSet),
    /// Matches the empty string where an assertion holds.
    Look(Look),
    /// The first part, then the second.
    Concat(&'a Expr, &'a Expr),
    /// The first part or the second. The first is preferred.
    Alternate(&'a Expr, &'a Expr),
    /// From `min` to `max` rounds of a body.
    Repeat {
        /// The least number of rounds.
        min: u32,
        /// The greatest number of rounds. `None` is no limit.
        max: Option<u32>,
        /// Whether a further round is preferred to stopping.
        greedy: bool,
        /// The expression that is repeated.
        body: &'a Expr,
    },
}

/// Why an expression isn't built. The parts that were passed are dropped.
#[derive(Clone, Copy, Debug, PartialEq, Eq, Error)]
pub enum ExprError {
    /// A repetition's `max` is below its `min`.
    #[error("a repetition's most rounds are fewer than its least")]
    BadRange,
    /// A repetition without a `max` has a body that can match the empty string.
    #[error("a repetition without an end has a body that can be empty")]
    EmptyBody,
    /// The expression would be more than 200 deep.
    #[error("the expression is deeper than 200")]
    TooDeep,
    /// Memory ran out.
    #[error("out of memory")]
    Memory,
}

impl Expr {
    ghost use Rattle.rx_spec.specs.Expressions.{Expression, IsBounded, IsLoopSafe};
    ghost use Rattle.rx_spec.specs.Expressions.{min_len as least_len, depth as depth_of};
    ghost use Rattle.rx_spec.specs.Expressions.{mirror as mirrored};
    ghost use Rattle.rx_spec.specs.Rows.{rows_count};
    ghost use Rattle.rx_spec.specs.Bytes.{only};
    ghost use Rattle.rx_expr.specs.Expr.{form_of, kind_of, HasPartsBelow, literal_of};
    ghost use Rattle.rx_expr.specs.ExprError.{RefusesJoin, RefusesRepeat};

    /// Matches the empty string.
    pub fn empty() -> Expr
        ensures { result ≡ Expression.Empty }
    {
        Expr { node: Node::Empty }
    }

    /// Matches one byte of a set.
    pub fn class(set: ByteSet) -> Expr
        ensures { result ≡ Expression.Class set }
    {
        Expr {
            node: Node::Class(set),
        }
    }

    /// Matches the empty string where an assertion holds.
    pub fn look(look: Look) -> Expr
        ensures { result ≡ Expression.Look look }
    {
        Expr {
            node: Node::Look(look),
        }
    }

    /// Matches the first part, then the second.
    #[tactic(auto, unfolding(crate::specs::Expr::min_len, crate::specs::Expr::depth, crate::specs::Expr::rows_count))]
    pub fn concat(alloc: Global, first: Expr, second: Expr) -> Result<Expr, ExprError>
        ensures ok { IfOk result (λ e. e ≡ Expression.Concat first second) }
        ensures shallow { IfOk result (λ e. depth_of e ≤ 200) }
        ensures err { IfErr result (RefusesJoin (Expression.Concat first second)) }
    {
        let min_len = first.min_len().saturating_add(second.min_len());
        let rows = (first.rows_len() + second.rows_len()).min(ROWS_LIMIT);
        let depth = 1 + first.depth().max(second.depth());
        if depth > MAX_DEPTH {
            return Err(ExprError::TooDeep);
        }
        Expr::inner(alloc, Form::Concat(first, second), min_len, rows, depth)
    }

    /// Matches the first part or the second. The first is preferred.
    #[tactic(auto, unfolding(crate::specs::Expr::min_len, crate::specs::Expr::depth, crate::specs::Expr::rows_count))]
    pub fn alternate(alloc: Global, first: Expr, second: Expr) -> Result<Expr, ExprError>
        ensures ok { IfOk result (λ e. e ≡ Expression.Alternate first second) }
        ensures shallow { IfOk result (λ e. depth_of e ≤ 200) }
        ensures err { IfErr result (RefusesJoin (Expression.Alternate first second)) }
    {
        let min_len = first.min_len().min(second.min_len());
        let rows = (first.rows_len() + second.rows_len() + 1).min(ROWS_LIMIT);
        let depth = 1 + first.depth().max(second.depth());
        if depth > MAX_DEPTH {
            return Err(ExprError::TooDeep);
        }
        Expr::inner(alloc, Form::Alternate(first, second), min_len, rows, depth)
    }

    /// Matches from `min` to `max` rounds of a body. `None` as `max` is no limit. A greedy repetition prefers a further
    /// round, a lazy one prefers to stop.
    #[tactic(auto, unfolding(crate::specs::Expr::min_len, crate::specs::Expr::depth, crate::specs::Expr::rows_count))]
    pub fn repeat(
        alloc: Global,
        min: u32,
        max: Option<u32>,
        greedy: bool,
        body: Expr,
    ) -> Result<Expr, ExprError>
        ensures ok { IfOk result (λ e. e ≡ Expression.Repeat min max greedy body) }
        // The bounds are in order, and without an upper one each round reads a byte.
        ensures bounded { OnOk result (IsBounded min max body) }
        ensures shallow { IfOk result (λ e. depth_of e ≤ 200) }
        ensures err { IfErr result (RefusesRepeat min max body (Expression.Repeat min max greedy body)) }
    {
        check_bounds(min, max, &body)?;
        let min_len = u64::from(min).saturating_mul(body.min_len());
        let rows = repeated_rows(min, max, body.rows_len());
        let depth = 1 + body.depth();
        if depth > MAX_DEPTH {
            return Err(ExprError::TooDeep);
        }
        let form = Form::Repeat {
            min,
            max,
            greedy,
            body,
        };
        Expr::inner(alloc, form, min_len, rows, depth)
    }

    /// The class of one byte.
    fn byte(byte: u8) -> Expr
        ensures { result ≡ Expression.Class (only byte) }
    {
        let mut set = ByteSet::empty();
        set.add(byte);
        Expr::class(set)
    }

    /// Makes a form with parts, with what is kept beside it.
    fn inner(
        alloc: Global,
        form: Form,
        min_len: u64,
        rows: u64,
        depth: u32,
    ) -> Result<Expr, ExprError>
        requires least { min_len ≡ least (least_len (form_of form)) (2 ^ 64 - 1) }
        requires rows { rows ≡ least (rows_count (form_of form)) (2 ^ 31) }
        requires depth { depth ≡ depth_of (form_of form) }
        requires shallow { depth ≤ 200 }
        requires safe { IsLoopSafe (form_of form) }
        ensures ok { IfOk result (λ e. e ≡ form_of form) }
        ensures err { IfErr result (λ e. e ≡ ExprError.Memory) }
    {
        let inner = Inner {
            form,
            min_len,
            rows: rows as u32,
            depth,
        };
        let inner = Box::new(alloc, inner).map_err(|_| ExprError::Memory)?;
        Ok(Expr {
            node: Node::Inner(inner),
        })
    }

    /// Matches a text. The expression is balanced: the literal of the first half of the bytes, rounded down, and that
    /// of the second, concatenated. No byte makes the empty expression, one byte its class. The only error is `Memory`.
    #[tactic(auto, unfolding(crate::specs::Expr::literal_within))]
    pub fn literal(alloc: Global, bytes: &[u8]) -> Result<Expr, ExprError>
        ensures ok { IfOk result (λ e. e ≡ literal_of bytes.now) }
        ensures err { IfErr result (λ e. e ≡ ExprError.Memory) }
    {
        match bytes {
            [] => Ok(Expr::empty()),
            [byte] => Ok(Expr::byte(*byte)),
            _ => {
                let (front, back) = bytes.split_at(bytes.len() / 2);
                let first = Expr::literal(alloc, front)?;
                let second = Expr::literal(alloc, back)?;
                Expr::concat(alloc, first, second)
            }
        }
    }

    /// The mirrored expression, which matches the reversed matches: the parts of each concatenation are swapped. The
    /// only error is `Memory`.
    #[cycle(mirror)]
    #[tactic(auto, unfolding(rx_spec::specs::Expressions::mirror))]
    pub fn mirror(&self, alloc: Global) -> Result<Expr, ExprError>
        ensures ok { IfOk result (λ e. e ≡ mirrored self.now) }
        ensures err { IfErr result (λ e. e ≡ ExprError.Memory) }
    {
        match &self.node {
            Node::Empty => Ok(Expr::empty()),
            Node::Class(set) => Ok(Expr::class(*set)),
            Node::Look(look) => Ok(Expr::look(*look)),
            Node::Inner(inner) => inner.mirror(alloc),
        }
    }

    /// The form and the parts. Each part is less deep.
    #[tactic(auto, unfolding(rx_spec::specs::Expressions::depth))]
    pub fn kind(&self) -> ExprKind<'_>
        ensures whole { kind_of result ≡ self.now }
        ensures parts { HasPartsBelow (depth_of self.now) result }
    {
        match &self.node {
            Node::Empty => ExprKind::Empty,
            Node::Class(set) => ExprKind::Class(*set),
            Node::Look(look) => ExprKind::Look(*look),
            Node::Inner(inner) => match &inner.form {
                Form::Concat(first, second) => ExprKind::Concat(first, second),
                Form::Alternate(first, second) => ExprKind::Alternate(first, second),
                Form::Repeat {
                    min,
                    max,
                    greedy,
                    body,
                } => ExprKind::Repeat {
                    min: *min,
                    max: *max,
                    greedy: *greedy,
                    body,
                },
            },
        }
    }

    /// The length in bytes of the shortest match, capped at 2^64 - 1.
    #[tactic(auto, unfolding(rx_spec::specs::Expressions::min_len))]
    pub fn min_len(&self) -> u64
        ensures value { result ≡ least (least_len self.now) (2 ^ 64 - 1) }
        // Each repetition in an expression is bounded.
        ensures safe { IsLoopSafe self.now }
    {
        match &self.node {
            Node::Empty | Node::Look(_) => 0,
            Node::Class(_) => 1,
            Node::Inner(inner) => inner.min_len,
        }
    }

    /// The depth, at most 200: 1 for a leaf, otherwise one more than that of the deepest part.
    #[tactic(auto, unfolding(rx_spec::specs::Expressions::depth))]
    pub fn depth(&self) -> u32
        ensures value { result ≡ depth_of self.now }
        ensures bound { result ≤ 200 }
    {
        match &self.node {
            Node::Inner(inner) => inner.depth,
            _ => 1,
        }
    }

    /// The number of its NFA states, capped at 2^31.
    #[tactic(auto, unfolding(rx_spec::specs::Rows::rows_count))]
    pub(crate) fn rows_len(&self) -> u64
        ensures value { result ≡ least (rows_count self.now) (2 ^ 31) }
        ensures bound { result ≤ 2 ^ 31 }
        ensures safe { IsLoopSafe self.now }
    {
        match &self.node {
            Node::Empty => 0,
            Node::Class(_) | Node::Look(_) => 1,
            Node::Inner(inner) => u64::from(inner.rows),
        }
    }
}

impl Inner {
    ghost use Rattle.rx_spec.specs.Expressions.{mirror as mirrored};
    ghost use Rattle.rx_expr.specs.Expr.{form_of, IsKept};

    #[cycle(mirror)]
    fn mirror(&self, alloc: Global) -> Result<Expr, ExprError>
        requires { IsKept self.now }
        ensures ok { IfOk result (λ e. e ≡ mirrored (form_of self.now.form)) }
        ensures err { IfErr result (λ e. e ≡ ExprError.Memory) }
    {
        let form = self.form.mirror(alloc)?;
        Expr::inner(alloc, form, self.min_len, u64::from(self.rows), self.depth)
    }
}

impl Form {
    ghost use Rattle.rx_spec.specs.Expressions.{mirror as mirrored};
    ghost use Rattle.rx_expr.specs.Expr.{form_of};

    #[cycle(mirror)]
    #[tactic(auto, unfolding(rx_spec::specs::Expressions::mirror))]
    fn mirror(&self, alloc: Global) -> Result<Form, ExprError>
        ensures ok { IfOk result (λ form. form_of form ≡ mirrored (form_of self.now)) }
        ensures err { IfErr result (λ e. e ≡ ExprError.Memory) }
    {
        Ok(match self {
            Form::Concat(first, second) => {
                Form::Concat(second.mirror(alloc)?, first.mirror(alloc)?)
            }
            Form::Alternate(first, second) => {
                Form::Alternate(first.mirror(alloc)?, second.mirror(alloc)?)
            }
            Form::Repeat {
                min,
                max,
                greedy,
                body,
            } => Form::Repeat {
                min: *min,
                max: *max,
                greedy: *greedy,
                body: body.mirror(alloc)?,
            },
        })
    }
}
