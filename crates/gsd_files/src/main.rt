// Lists each file that an argument names, under its name, or says on standard error why it cannot be read.
#![tactic(auto)]

use gsd_input::read_file;
use std::env::FillError;
use std::io;
use std::rt::{Env, Files};

fn list(rt: &(impl Files + Print + Eprint), path: &str) -> io::Result<()> {
    let mut input = [0u8; 65537];
    let mut text = [0u8; 262144];
    match read_file(rt, path, &mut input) {
        Ok(n) => {
            let size = gsd_listing::print_into(&input[..n], &mut text);
            println!(rt; "{path}")?;
            rt.write_all(&text[0..size])
        }
        Err(e) => eprintln!(rt; "{path}: {e}"),
    }
}

// Lists the file that argument i names; false where there is no such argument. To std a path is UTF-8 text.
fn list_argument(rt: &(impl Env + Files + Print + Eprint), i: usize) -> io::Result<bool> {
    let mut path = [0u8; 4096];
    match rt.arg(i, &mut path) {
        Ok(length) => match str::from_utf8(&path[..length]) {
            Ok(path) => list(rt, path)?,
            Err(e) => eprintln!(rt; "argument {i}: {e}")?,
        },
        Err(FillError::TooLong) => eprintln!(rt; "argument {i}: too long")?,
        Err(FillError::NotPresent) => return Ok(false),
    }
    Ok(true)
}

fn main(rt: HostRuntime) -> io::Result<()> {
    for i in 1..usize::MAX {
        if !list_argument(&rt, i)? {
            break;
        }
    }
    Ok(())
}
