//! Runs tables of cases against the reader and the printer of signatures: it prints each case whose outcome isn't that of its table, and
//! how many passed and failed. The words are pairs: `types`, `files` or `printed`, and a table's name. The core signature is two more cases.
#![tactic(auto)]

mod core_cases;
mod escapes;
mod failed;
mod reading;
mod shown_declarations;
mod shown_types;
mod table;

use crate::core_cases::{is_printed, is_read};
use crate::failed::Failed;
use crate::reading::{Form, shown_outcome};
use crate::table::{case_of, is_remark};
use run_base::{StdFiles, read_all};
use std::alloc::Global;
use std::env::Env;
use std::process::ExitCode;
use std::{env, fs};

/// The largest table, in bytes.
const LIMIT: u32 = 1_048_576;

/// How many cases passed and failed.
#[derive(Clone, Copy, Debug)]
struct Tally {
    passed: u32,
    failed: u32,
}

impl Tally {
    fn count(&mut self, passed: bool) {
        if passed {
            self.passed = self.passed.saturating_add(1);
        } else {
            self.failed = self.failed.saturating_add(1);
        }
    }
}

fn form_of(word: &str) -> Result<Form, Failed> {
    match word {
        "types" => Ok(Form::Type),
        "files" => Ok(Form::File),
        "printed" => Ok(Form::Printed),
        _ => Err(Failed::Words),
    }
}

/// Whether the case on a line passes. It is printed where it doesn't, with the front of its outcome.
fn run_line<R: Print + Alloc<A = Global>>(
    rt: &R,
    form: Form,
    number: u32,
    line: &str,
) -> Result<bool, Failed> {
    let Some(case) = case_of(rt.alloc(), line)? else {
        return Err(Failed::Line(number));
    };
    let found = shown_outcome(rt.alloc(), form, case.text.as_slice())?;
    let passed = found.as_str() == case.expected.as_str();
    if !passed {
        println!(rt; "line {number}: {:.200}", found.as_str())?;
    }
    Ok(passed)
}

/// Runs the cases of the table with this name.
fn run_table<R: Print + fs::Files + Alloc<A = Global>>(
    rt: &R,
    form: Form,
    name: &str,
    tally: &mut Tally,
) -> Result<(), Failed> {
    let mut files = StdFiles::new(rt);
    let bytes = read_all(rt.alloc(), &mut files, name, LIMIT)?;
    let Ok(table) = str::from_utf8(bytes.as_slice()) else {
        return Err(Failed::Table);
    };
    let mut number = 0u32;
    for line in table.lines() {
        number = number.saturating_add(1);
        if !is_remark(line) {
            tally.count(run_line(rt, form, number, line)?);
        }
    }
    Ok(())
}

/// Runs the cases of the tables that the words name.
fn run_tables<R: Env + Print + fs::Files + Alloc<A = Global>>(rt: &R) -> Result<Tally, Failed> {
    let mut tally = Tally {
        passed: 0,
        failed: 0,
    };
    let mut form = None;
    for word in env::args(rt).map_err(|_| Failed::Words)?.skip(1) {
        match form {
            None => form = Some(form_of(word.as_str())?),
            Some(known) => {
                run_table(rt, known, word.as_str(), &mut tally)?;
                form = None;
            }
        }
    }
    match form {
        None => Ok(tally),
        Some(_) => Err(Failed::Words),
    }
}

/// Counts a case of the core signature, which is printed where it doesn't pass.
fn count_core<R: Print>(rt: &R, name: &str, passed: bool, tally: &mut Tally) -> Result<(), Failed> {
    if !passed {
        println!(rt; "core signature: {name}")?;
    }
    tally.count(passed);
    Ok(())
}

/// Runs the tables and the cases of the core signature, and prints how many cases passed and failed. Answers whether none failed.
fn run<R: Env + Print + fs::Files + Alloc<A = Global>>(rt: &R) -> Result<bool, Failed> {
    let mut tally = run_tables(rt)?;
    count_core(rt, "not read so", is_read(rt.alloc())?, &mut tally)?;
    count_core(rt, "not printed so", is_printed(rt.alloc())?, &mut tally)?;
    let Tally { passed, failed } = tally;
    println!(rt; "{passed} passed, {failed} failed")?;
    Ok(failed == 0)
}

fn main(rt: HostRuntime) -> ExitCode {
    match run(&rt) {
        Ok(true) => ExitCode::from(0),
        Ok(false) => ExitCode::from(1),
        Err(failed) => {
            let _ = eprintln!(rt; "{failed:?}");
            ExitCode::from(2)
        }
    }
}
