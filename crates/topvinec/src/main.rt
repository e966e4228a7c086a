// The program: reads its arguments and files, and prints what the library reports.
#![tactic(auto)]

mod demo;
mod failure;

use demo::heap_demo;
use failure::Failure;
use inspect::{Report, inspect_delta, inspect_sorted};
use refusal::Refused;
use std::io::Read;
use std::process::ExitCode;
use std::{env, fs, io};

const HELP: &str = "topvinec: frame maps and heaps of scripts

  topvinec inspect sorted FILE    read a sorted map image (32-bit words, low byte first)
                                  and print its rows, or where it is broken
  topvinec inspect delta FILE     the same for a delta map image (bytes)
  topvinec heap-demo              collect a small heap with sharing, a cycle and garbage,
                                  and print its words before and after
  topvinec help                   print this text

A file name - means standard input. A broken image, a file that cannot be read
and a wrong command line end with status 1.

Example: topvinec inspect sorted examples/three_rows.map
";

// An image's kind.
#[derive(Clone, Copy)]
enum Kind {
    Delta,
    Sorted,
}

// What the command line asks for.
#[derive(Drop)]
enum Command {
    Help,
    HeapDemo,
    Inspect(Kind, String),
}

impl TryFrom<&str> for Kind {
    type Error = Failure;

    fn try_from(word: &str) -> Result<Kind, Failure> {
        match word {
            "delta" => Ok(Kind::Delta),
            "sorted" => Ok(Kind::Sorted),
            _ => Err(Failure::WrongUse(
                "no such kind of image (inspect sorted FILE, or inspect delta FILE)",
            )),
        }
    }
}

// The command after `inspect`: the image's kind, then the file.
fn parse_inspect(kind: Option<String>, file: Option<String>) -> Result<Command, Failure> {
    let kind = kind.ok_or(Failure::WrongUse(
        "inspect what? (inspect sorted FILE, or inspect delta FILE)",
    ))?;
    let file = file.ok_or(Failure::WrongUse(
        "which file? (inspect sorted FILE, or inspect delta FILE)",
    ))?;
    Ok(Command::Inspect(Kind::try_from(kind.as_str())?, file))
}

fn parse(rt: &HostRuntime) -> Result<Command, Failure> {
    let mut words = env::args(rt)?;
    let _program = words.next();
    let verb = words
        .next()
        .ok_or(Failure::WrongUse("no command (try: topvinec help)"))?;
    let first = words.next();
    let second = words.next();
    if words.next().is_some() {
        return Err(Failure::WrongUse("too many words (try: topvinec help)"));
    }
    match verb.as_str() {
        "heap-demo" => Ok(Command::HeapDemo),
        "help" => Ok(Command::Help),
        "inspect" => parse_inspect(first, second),
        _ => Err(Failure::WrongUse("no such command (try: topvinec help)")),
    }
}

// A file's bytes; the name - means standard input.
fn read_file(rt: &HostRuntime, name: &str) -> io::Result<Vec<u8>> {
    if name == "-" {
        let mut bytes = Vec::new(rt.alloc());
        rt.stdin().read_to_end(&mut bytes)?;
        return Ok(bytes);
    }
    fs::read(rt, name)
}

// Prints what there is to print of an image.
fn show(rt: &HostRuntime, kind: Kind, name: String) -> Result<(), Failure> {
    let image = read_file(rt, name.as_str()).map_err(|reason| Failure::Unreadable {
        name,
        reason,
    })?;
    let report = match kind {
        Kind::Delta => inspect_delta(rt.alloc(), image)?,
        Kind::Sorted => inspect_sorted(rt.alloc(), image.as_slice())?,
    };
    rt.print(report.text())?;
    match report {
        Report::Good(_) => Ok(()),
        Report::Bad(_) => Err(Failure::BadImage),
    }
}

fn run(rt: &HostRuntime) -> Result<(), Failure> {
    match parse(rt)? {
        Command::Help => Ok(rt.print(HELP)?),
        Command::HeapDemo => heap_demo(rt),
        Command::Inspect(kind, name) => show(rt, kind, name),
    }
}

// Prints a call's refusal, and hands back what is still to be told.
fn tell(rt: &HostRuntime, failure: Failure) -> Result<(), Failure> {
    match failure {
        Failure::BadImage => Ok(()),
        Failure::Refused(reason) => Ok(println!(rt; "{}", Refused(reason))?),
        other => Err(other),
    }
}

fn main(rt: HostRuntime) -> ExitCode {
    let Err(failure) = run(&rt) else {
        return ExitCode::SUCCESS;
    };
    if let Err(e) = tell(&rt, failure) {
        let _told = eprintln!(rt; "topvinec: {e}");
    }
    ExitCode::FAILURE
}
