// Lists the image on standard input, or says on standard error why it cannot be read.
#![tactic(auto)]

use gsd_input::read_full;
use std::io;

fn list(rt: &(impl Input + Print + Eprint)) -> io::Result<()> {
    let mut input = [0u8; 65537];
    let mut text = [0u8; 262144];
    match read_full(&mut rt.reader(), &mut input) {
        Ok(n) => {
            let size = gsd_listing::print_into(&input[..n], &mut text);
            rt.write_all(&text[0..size])
        }
        Err(e) => eprintln!(rt; "standard input: {e}"),
    }
}

fn main(rt: HostRuntime) -> io::Result<()> {
    list(&rt)
}
