//! The command `gen`: generated literals, searched in a generated haystack.

ghost use Rattle.std.specs.Prelude.{◌≡◌, ◌+◌, ◌<◌, ◌≤◌, IfOk};
ghost use Rattle.rx_plan.specs.Plan.{plan_of, usual};
ghost use Rattle.rx_regex.specs.Tables.{IsOf};
ghost use Rattle.rx_main.specs.Gen.{GenReplies, gen_haystack, gen_literal, gen_matches, gen_patterns, gen_reply};

use crate::lines::refusal_reply;
use crate::reply::{FOUND, Reply};
use rx_base::Input;
use rx_expr::Expr;
use rx_regex::{Built, Plan};
use std::alloc::{AllocError, Global};

/// The length of a literal in bytes.
const LITERAL_LEN: usize = 6;

/// The number of literals in the haystack for each pattern.
const ROUNDS: usize = 20;

/// The reply for `count` patterns.
pub fn generate(alloc: Global, count: u16) -> Result<Reply, AllocError>
    requires some { 1 ≤ count }
    requires few { count ≤ 1000 }
    ensures { IfOk result (GenReplies count) }
{
    let exprs = patterns(alloc, count)?;
    match Built::new(alloc, &exprs, &Plan::new()) {
        Ok(built) => count_matches(alloc, &built, count),
        Err(error) => refusal_reply(alloc, &error),
    }
}

/// The literal of a pattern: `k`, its number in four digits, `;`.
fn literal(pattern: u16) -> [u8; LITERAL_LEN]
    requires { pattern < 10000 }
    ensures { result ≡ gen_literal pattern }
{
    [
        b'k',
        digit(pattern / 1000),
        digit(pattern / 100 % 10),
        digit(pattern / 10 % 10),
        digit(pattern % 10),
        b';',
    ]
}

/// A decimal digit.
fn digit(value: u16) -> u8
    requires { value < 10 }
    ensures { result ≡ 48 + value }
{
    b'0' + value as u8
}

/// The patterns, each a literal.
fn patterns(alloc: Global, count: u16) -> Result<Vec<Expr>, AllocError>
    requires { count ≤ 1000 }
    ensures { IfOk result (λ exprs. exprs.items ≡ gen_patterns count) }
{
    let mut exprs = Vec::with_capacity(alloc, usize::from(count))?;
    'patterns: for pattern in 0..count {
        match Expr::literal(alloc, &literal(pattern)) {
            Ok(expr) => exprs.push(expr)?,
            Err(_) => return Err(AllocError),
        }
    }
    Ok(exprs)
}

/// The haystack: 20 literals for each pattern, each followed by a dash. The literal at index j is that of pattern
/// (7 j + 3) mod `count`.
fn haystack(alloc: Global, count: u16) -> Result<Vec<u8>, AllocError>
    requires some { 1 ≤ count }
    requires few { count ≤ 1000 }
    ensures { IfOk result (λ bytes. bytes.items ≡ gen_haystack count) }
{
    let rounds = ROUNDS * usize::from(count);
    let mut bytes = Vec::with_capacity(alloc, rounds * (LITERAL_LEN + 1))?;
    'rounds: for round in 0..rounds {
        let pattern = (7 * round + 3) % usize::from(count);
        bytes.extend_from_slice(&literal(pattern as u16))?;
        bytes.push(b'-')?;
    }
    Ok(bytes)
}

/// The reply with the number of matches and the sum of their pattern numbers.
fn count_matches(alloc: Global, built: &Built, count: u16) -> Result<Reply, AllocError>
    requires some { 1 ≤ count }
    requires few { count ≤ 1000 }
    requires built { IsOf (plan_of usual) (gen_patterns count) built.now }
    ensures { IfOk result (λ reply. reply ≡ gen_reply count (gen_matches count)) }
{
    let haystack = haystack(alloc, count)?;
    let (mut matches, mut sum) = (0u64, 0u64);
    'matches: for item in built.find_iter(&Input::new(&haystack)) {
        let Ok(found) = item else {
            unreachable!("the usual plan has starts for any search, and no quit byte");
        };
        matches += 1;
        sum += u64::from(found.pattern().as_u32());
    }
    let text = format!(in alloc; "gen {count} {matches} {sum}\n")?;
    Ok(Reply::new(text, FOUND))
}
