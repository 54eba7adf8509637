//! Four small programs that use the library, a module each: `example_programs NAME WORDS..`.
//!
//! | name | what it does |
//! |---|---|
//! | `lexer` | writes the tokens of a source file |
//! | `log_filter` | copies the lines that match |
//! | `router` | prints the routes that match each path |
//! | `embedded` | searches a text in small pieces, by a table in the program's own bytes |
//!
//! The head of each module gives its words and its status. The status is 2 for another name, and 3 if memory ran out
//! before a program began.
#![tactic(auto)]

mod embedded;
mod lexer;
mod log_filter;
mod router;

use std::process::ExitCode;
use std::{env, io};

fn main(rt: HostRuntime) -> ExitCode {
    match name(&rt) {
        Ok(Some(name)) => run(&rt, name.as_str()),
        Ok(None) => refuse(&rt),
        Err(_) => ExitCode::from(3),
    }
}

/// The name of the program to run.
fn name(rt: &HostRuntime) -> io::Result<Option<String>> {
    Ok(env::args(rt)?.nth(1))
}

/// Runs the program of a name.
fn run(rt: &HostRuntime, name: &str) -> ExitCode {
    match name {
        "lexer" => lexer::main(rt),
        "log_filter" => log_filter::main(rt),
        "router" => router::main(rt),
        "embedded" => embedded::main(rt),
        _ => refuse(rt),
    }
}

/// Says which names there are.
fn refuse(rt: &HostRuntime) -> ExitCode {
    let _ = eprintln!(rt; "usage: example_programs lexer|log_filter|router|embedded WORDS..");
    ExitCode::from(2)
}
