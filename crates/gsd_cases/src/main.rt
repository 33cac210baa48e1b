// Runs tables of cases, the files that its arguments name, and prints each answer that differs. A table has a line for each
// thing that is made or asked (words.rt of gsd_lines lists the forms); "#" begins a case, "-" a comment.
#![tactic(auto)]

mod ask;
mod call;
mod nchilada;
mod rawarray;
mod readers;
mod run;
mod turns;

use gsd_input::read_file;
use gsd_tables::tally::Tally;
use std::env::FillError;
use std::io;
use std::rt::{Env, Files};

// The greatest table.
const MOST: usize = 65535;

// A table's counts go to those of all.
fn run_file(rt: &(impl Files + Print + Eprint), path: &str, all: &mut Tally) -> io::Result<()> {
    let mut table = [0u8; 65536];
    match read_file(rt, path, &mut table) {
        Ok(n) if n <= MOST => all.add(run::run(rt, &mut table, n, path)?),
        Ok(_) => {
            println!(rt; "too long: {path}")?;
            all.lose();
        }
        Err(e) => {
            eprintln!(rt; "{path}: {e}")?;
            all.lose();
        }
    }
    Ok(())
}

// Runs the table that argument i names; false where there is no such argument. To std a path is UTF-8 text. gsd_files has the same but for
// the counts: one for both would be handed a closure for each of its three ends.
fn run_argument(
    rt: &(impl Env + Files + Print + Eprint),
    i: usize,
    all: &mut Tally,
) -> io::Result<bool> {
    let mut path = [0u8; 4096];
    match rt.arg(i, &mut path) {
        Ok(length) => match str::from_utf8(&path[..length]) {
            Ok(path) => run_file(rt, path, all)?,
            Err(e) => {
                eprintln!(rt; "argument {i}: {e}")?;
                all.lose();
            }
        },
        Err(FillError::TooLong) => {
            eprintln!(rt; "argument {i}: too long")?;
            all.lose();
        }
        Err(FillError::NotPresent) => return Ok(false),
    }
    Ok(true)
}

fn main(rt: HostRuntime) -> io::Result<()> {
    let mut all = Tally::new("in all");
    for i in 1..usize::MAX {
        if !run_argument(&rt, i, &mut all)? {
            break;
        }
    }
    all.print(&rt)
}
