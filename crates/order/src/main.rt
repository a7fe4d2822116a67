// The program `order`: what recorded answers mean for the client.
#![tactic(auto)]

use anyhow::anyhow;
use report::explain;
use std::io::Write;
use std::process::ExitCode;
use std::{env, fs};

const USAGE: &str = "usage: order explain TAPE    tell what each entry of a tape means
       order help            print this text

A tape is a file of recorded answers. For each entry a line is printed:
    entry INDEX KIND ENDING CODE METHOD REDIRECT
KIND is answer, dropped, denied or other; ENDING how it ends for the client; of a
server error CODE is its code and REDIRECT the address that it names, if any; METHOD
is what a retry does first; - stands for none. What is cut off counts as dropped.";

const HINT: &str = "expected: order explain TAPE; 'order help' tells more";

fn explain_tape(rt: &HostRuntime, path: &str) -> anyhow::Result<ExitCode> {
    let tape = match fs::read(rt, path) {
        Ok(tape) => tape,
        Err(e) => {
            // By hand: a returned error keeps only 120 bytes, and a path may be longer.
            eprintln!(rt; "order: cannot read {path}: {e}")?;
            return Ok(ExitCode::FAILURE);
        }
    };
    let lines = explain(rt.alloc(), tape.as_slice())?;
    rt.stdout().write_all(lines.as_slice())?;
    Ok(ExitCode::SUCCESS)
}

fn help(rt: &HostRuntime) -> anyhow::Result<ExitCode> {
    rt.println(USAGE)?;
    Ok(ExitCode::SUCCESS)
}

fn run(rt: &HostRuntime) -> anyhow::Result<ExitCode> {
    let mut args = env::args(rt)?.skip(1);
    let (command, operand, extra) = (args.next(), args.next(), args.next());
    match (command.as_deref(), operand.as_deref(), extra) {
        (Some("explain"), Some(path), None) => explain_tape(rt, path),
        (Some("help" | "--help" | "-h"), None, None) => help(rt),
        _ => Err(anyhow!(HINT)),
    }
}

fn main(rt: HostRuntime) -> ExitCode {
    run(&rt).unwrap_or_else(|e| {
        let _ = eprintln!(rt; "order: {e}");
        ExitCode::FAILURE
    })
}
