//! The command `check`: whether some bytes begin with an image of a table.

ghost use Rattle.std.specs.Prelude.{◌≡◌, ◌≢◌, IfOk};
ghost use Rattle.rx_spec.specs.declared.Form.TheVariants.{Dense, Sparse};
ghost use Rattle.rx_wire.specs.Kinds.{Kind, kind_of};
ghost use Rattle.rx_image.specs.Tables.{pair_of};
ghost use Rattle.rx_main.specs.Check.{CheckPairReplies, CheckReplies, accepted_reply, failed_test_reply};
ghost use Rattle.rx_main.specs.Check.{pair_rows_reply};

use crate::lines::fixed_reply;
use crate::reply::{FOUND, NOT_FOUND, Reply};
use rx_dense::OwnedDFA;
use rx_image::{DenseRead, SparseRead, Tables, read_pair};
use rx_regex::Form;
use rx_search::Automaton;
use rx_sparse::DFA as SparseDFA;
use rx_wire::DeserializeErrorKind;
use std::alloc::{AllocError, Global};

/// The reply to bytes that should be an image of a form.
pub fn check(alloc: Global, form: Form, bytes: &[u8]) -> Result<Reply, AllocError>
    ensures { IfOk result (CheckReplies form bytes.now) }
{
    match form {
        Form::Dense => check_dense(alloc, bytes),
        Form::Sparse => check_sparse(alloc, bytes),
    }
}

/// The reply to bytes that should be an image of a dense table.
fn check_dense(alloc: Global, bytes: &[u8]) -> Result<Reply, AllocError>
    ensures { IfOk result (CheckReplies Dense bytes.now) }
{
    match OwnedDFA::from_bytes(alloc, bytes) {
        Ok((table, size)) => accepted_reply(alloc, table.state_len(), table.pattern_len(), size),
        Err(error) => failed_test_reply(alloc, error.kind()),
    }
}

/// The reply to bytes that should be an image of a sparse table.
fn check_sparse(alloc: Global, bytes: &[u8]) -> Result<Reply, AllocError>
    ensures { IfOk result (CheckReplies Sparse bytes.now) }
{
    match SparseDFA::<&[u8]>::from_bytes(alloc, bytes) {
        Ok((table, size)) => accepted_reply(alloc, table.state_len(), table.pattern_len(), size),
        Err(error) => failed_test_reply(alloc, error.kind()),
    }
}

/// The reply to bytes that should be an image of a pair.
pub fn check_pair(alloc: Global, bytes: &[u8]) -> Result<Reply, AllocError>
    ensures { IfOk result (CheckPairReplies bytes.now) }
{
    match read_pair(alloc, bytes) {
        Ok((tables, size)) => accepted_pair_reply(alloc, &tables, size),
        Err(error) => failed_test_reply(alloc, error.kind()),
    }
}

/// The reply to an image of these tables that takes `size` bytes.
fn accepted_pair_reply(alloc: Global, tables: &Tables<'_>, size: usize) -> Result<Reply, AllocError>
    ensures { IfOk result (λ reply. reply ≡ pair_rows_reply (pair_of tables.now) size) }
{
    let (forward, reverse, patterns) = match tables {
        Tables::Dense(forward, reverse) => {
            (
                forward.state_len(),
                reverse.state_len(),
                forward.pattern_len(),
            )
        }
        Tables::Sparse(forward, reverse) => {
            (
                forward.state_len(),
                reverse.state_len(),
                forward.pattern_len(),
            )
        }
    };
    let text = format!(in alloc; "ok {forward} {reverse} {patterns} {size}\n")?;
    Ok(Reply::new(text, FOUND))
}

/// The reply to an image of a table with this number of rows and patterns that takes `size` bytes.
fn accepted_reply(
    alloc: Global,
    rows: usize,
    patterns: usize,
    size: usize,
) -> Result<Reply, AllocError>
    ensures { IfOk result (λ reply. reply ≡ accepted_reply rows patterns size) }
{
    let text = format!(in alloc; "ok {rows} {patterns} {size}\n")?;
    Ok(Reply::new(text, FOUND))
}

/// The reply to bytes that fail a test of the reader.
pub fn failed_test_reply(alloc: Global, kind: &DeserializeErrorKind) -> Result<Reply, AllocError>
    ensures { IfOk result (λ reply.
        (kind_of kind.now ≢ Kind.Memory) × (reply ≡ failed_test_reply (kind_of kind.now))) }
{
    match kind {
        DeserializeErrorKind::Generic { .. } => fixed_reply(alloc, "refused generic\n", NOT_FOUND),
        DeserializeErrorKind::BufferTooSmall { .. } => {
            fixed_reply(alloc, "refused buffer\n", NOT_FOUND)
        }
        DeserializeErrorKind::VersionMismatch { .. } => {
            fixed_reply(alloc, "refused version\n", NOT_FOUND)
        }
        DeserializeErrorKind::EndianMismatch { .. } => {
            fixed_reply(alloc, "refused endian\n", NOT_FOUND)
        }
        DeserializeErrorKind::LabelMismatch { .. } => {
            fixed_reply(alloc, "refused label\n", NOT_FOUND)
        }
        DeserializeErrorKind::PatternID { .. } => fixed_reply(
            alloc,
            "refused pattern\n",
            NOT_FOUND,
        ),
        DeserializeErrorKind::StateID { .. } => fixed_reply(alloc, "refused state\n", NOT_FOUND),
        DeserializeErrorKind::Memory => Err(AllocError),
    }
}
