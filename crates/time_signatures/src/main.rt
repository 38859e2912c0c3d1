//! Divides a signature file into tokens, reads it or prints it, again and again, for `bench/run`. The words are `tokens`, `trees` or `printing`,
//! the file's name, and how often.
#![tactic(auto)]

ghost use Rattle.std.specs.Prelude.{◌≤◌, length, IfSome};
ghost use Rattle.rbs_lexer.specs.Division.{end_of, IsDivided};

use plain_data::Many;
use printed_signatures::print;
use rbs_lexer::{Divided, divide};
use rbs_parser::parse;
use run_base::{StdFiles, read_all};
use sig_model::decl::Decl;
use std::alloc::Global;
use std::env::Env;
use std::process::ExitCode;
use std::{env, fs};

/// The largest file, in bytes.
const LIMIT: u32 = 1_048_576;

/// What is done again and again, and what is counted of its last result.
#[derive(Clone, Copy, Debug)]
enum Work {
    /// The tokens of the bytes.
    Tokens,
    /// The declarations that the tokens spell.
    Trees,
    /// The bytes of the declarations' printed form.
    Printing,
}

fn work_of(word: &str) -> Option<Work> {
    match word {
        "tokens" => Some(Work::Tokens),
        "trees" => Some(Work::Trees),
        "printing" => Some(Work::Printing),
        _ => None,
    }
}

/// The file's bytes, or `None` where they can't be had.
fn bytes_of<R: fs::Files + Alloc<A = Global>>(rt: &R, name: &str) -> Option<Many<u8>>
    ensures { IfSome result (λ bytes. length bytes ≤ 1048576) }
{
    let mut files = StdFiles::new(rt);
    read_all(rt.alloc(), &mut files, name, LIMIT).ok()
}

/// How many tokens these bytes divide into, so many times.
fn divide_again(alloc: Global, bytes: &[u8], times: u32) -> Option<usize>
    requires { length bytes.now ≤ 1048576 }
{
    let mut found = None;
    for _ in 0..times {
        found = Some(divide(alloc, 0, bytes).ok()?.tokens.len());
    }
    found
}

/// How many declarations these bytes spell, which divide so, so many times.
fn read_again(alloc: Global, bytes: &[u8], divided: &Divided, times: u32) -> Option<usize>
    requires small { length bytes.now ≤ 1048576 }
    requires divided { IsDivided 0 divided.now.tokens (end_of divided.now.ending) bytes.now }
{
    let mut found = None;
    for _ in 0..times {
        found = Some(parse(alloc, 0, bytes, divided).ok()?.len());
    }
    found
}

/// How many bytes the printed form of these declarations has, so many times.
fn print_again(alloc: Global, decls: &[Decl], times: u32) -> Option<usize> {
    let mut found = None;
    for _ in 0..times {
        let mut out = Many::new(alloc);
        print(alloc, decls, &mut out).ok()?;
        found = Some(out.len());
    }
    found
}

/// What the last time gave, or `None` where it gives nothing.
fn count(alloc: Global, work: Work, bytes: &[u8], times: u32) -> Option<usize>
    requires { length bytes.now ≤ 1048576 }
{
    let divided = divide(alloc, 0, bytes).ok()?;
    match work {
        Work::Tokens => divide_again(alloc, bytes, times),
        Work::Trees => read_again(alloc, bytes, &divided, times),
        Work::Printing => {
            let decls = parse(alloc, 0, bytes, &divided).ok()?;
            print_again(alloc, decls.as_slice(), times)
        }
    }
}

/// What comes of the work, on the file and as often as the words say.
fn run<R: Env + fs::Files + Alloc<A = Global>>(rt: &R) -> Option<usize> {
    let args = env::args(rt).ok()?;
    let mut args = args.skip(1);
    let work = work_of(args.next()?.as_str())?;
    let name = args.next()?;
    let times = args.next()?;
    let times = times.as_str().parse::<u32>().ok()?;
    let bytes = bytes_of(rt, name.as_str())?;
    count(rt.alloc(), work, bytes.as_slice(), times)
}

fn main(rt: HostRuntime) -> ExitCode {
    let Some(found) = run(&rt) else {
        return ExitCode::from(1);
    };
    if println!(rt; "{found}").is_err() {
        return ExitCode::from(1);
    }
    ExitCode::from(0)
}
