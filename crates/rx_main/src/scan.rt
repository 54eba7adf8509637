//! The command `scan`: the tokens of the text after an image.

ghost use Rattle.std.specs.Prelude.{◌≡◌, ◌++◌, IfOk, OnOk, drop};
ghost use Rattle.std.specs.String.{string_bytes};
ghost use Rattle.rx_spec.specs.declared.Form.TheVariants.{Dense, Sparse};
ghost use Rattle.rx_scan.specs.declared.token.ScanEnd.{ScanEnd};
ghost use Rattle.rx_main.specs.Scan.{ScanReplies, end_reply, scanned_reply, token_line};

use crate::check::failed_test_reply;
use crate::lines::error_reply;
use crate::reply::{FOUND, NOT_FOUND, Reply};
use rx_base::{Anchored, MatchError};
use rx_dense::OwnedDFA;
use rx_image::{DenseRead, SparseRead};
use rx_regex::Form;
use rx_scan::{ScanEnd, Scanner, Token};
use rx_search::Automaton;
use rx_sparse::DFA as SparseDFA;
use std::alloc::{AllocError, Global};
use std::fmt::Write;

/// The reply to an image of a table of a form and the text after it.
pub fn scan(alloc: Global, form: Form, bytes: &[u8]) -> Result<Reply, AllocError>
    ensures { IfOk result (ScanReplies form bytes.now) }
{
    match form {
        Form::Dense => scan_dense(alloc, bytes),
        Form::Sparse => scan_sparse(alloc, bytes),
    }
}

/// The reply to an image of a dense table.
fn scan_dense(alloc: Global, bytes: &[u8]) -> Result<Reply, AllocError>
    ensures { IfOk result (ScanReplies Dense bytes.now) }
{
    match OwnedDFA::from_bytes(alloc, bytes) {
        Ok((table, size)) => scanned_reply(alloc, &table, behind(bytes, size)),
        Err(error) => failed_test_reply(alloc, error.kind()),
    }
}

/// The reply to an image of a sparse table.
fn scan_sparse(alloc: Global, bytes: &[u8]) -> Result<Reply, AllocError>
    ensures { IfOk result (ScanReplies Sparse bytes.now) }
{
    match SparseDFA::<&[u8]>::from_bytes(alloc, bytes) {
        Ok((table, size)) => scanned_reply(alloc, &table, behind(bytes, size)),
        Err(error) => failed_test_reply(alloc, error.kind()),
    }
}

/// The bytes after the image.
fn behind(bytes: &[u8], size: usize) -> &[u8]
    ensures { result.now ≡ drop size bytes.now }
{
    let len = bytes.len().min(size);
    let (_, text) = bytes.split_at(len);
    text
}

/// The reply with the tokens of a text and how they end.
fn scanned_reply<A: Automaton>(alloc: Global, table: &A, text: &[u8]) -> Result<Reply, AllocError>
    requires { A.IsSound table.now }
    ensures { IfOk result (λ reply. reply ≡ scanned_reply (A.table table.now) text.now) }
{
    let mut lines = String::new(alloc);
    let mut count: u64 = 0;
    let mut scanner = Scanner::new(table, text);
    'tokens: while let Some(token) = scanner.next() {
        push_token(&mut lines, &token)?;
        count += 1;
    }
    let Some(end) = scanner.end() else {
        unreachable!("no token is left");
    };
    end_reply(lines, count, end)
}

/// Adds the line of a token.
fn push_token(lines: &mut String, token: &Token) -> Result<(), AllocError>
    ensures { OnOk result (string_bytes lines.new ≡ string_bytes lines.old ++ token_line token.now) }
{
    let pattern = token.pattern.as_u32();
    let (start, end) = (token.span.start, token.span.end);
    let (line, column) = (token.line, token.column);
    writeln!(lines, "token {pattern} {start} {end} {line} {column}")
}

/// The reply with the lines of `count` tokens that end like this.
fn end_reply(lines: String, count: u64, end: ScanEnd) -> Result<Reply, AllocError>
    ensures { IfOk result (λ reply. reply ≡ end_reply (string_bytes lines) count end) }
{
    match end {
        ScanEnd::Done => done_reply(lines, count),
        ScanEnd::Stuck { offset } => stuck_reply(lines, offset),
        ScanEnd::Quit { byte, offset } => error_reply(lines, &MatchError::quit(byte, offset)),
        ScanEnd::Unsupported => {
            error_reply(lines, &MatchError::unsupported_anchored(Anchored::Yes))
        }
    }
}

/// The reply for a text that is cut to its end.
fn done_reply(lines: String, count: u64) -> Result<Reply, AllocError>
    ensures { IfOk result (λ reply. reply ≡ end_reply (string_bytes lines) count ScanEnd.Done) }
{
    let mut text = lines;
    writeln!(text, "tokens {count}")?;
    Ok(Reply::new(text, FOUND))
}

/// The reply for a text in which no token begins at an offset.
fn stuck_reply(lines: String, offset: usize) -> Result<Reply, AllocError>
    ensures { IfOk result (λ reply. reply ≡ end_reply (string_bytes lines) 0 (ScanEnd.Stuck offset)) }
{
    let mut text = lines;
    writeln!(text, "stuck {offset}")?;
    Ok(Reply::new(text, NOT_FOUND))
}
