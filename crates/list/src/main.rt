// The list program: reads the six files of the folder that its argument names, or of the current one, and prints the list.
//
// A file that is missing, cannot be opened or is a folder counts as missing, which `bad input` or `too long` tells. Where reading a file
// fails, nothing is printed but a message on standard error. The list is handed over in one piece, once all of it is known; where writing
// fails, the program ends with an error, whose message on standard error says that what was written is not all of it. It also ends with an
// error where an argument is not UTF-8, or memory runs out for the arguments.
#![tactic(auto)]

use std::env;
use std::io::{Error, Result, Write};

fn print(rt: &HostRuntime, folder: &[u8]) -> Result<()> {
    let mut out = listing_text::buffer();
    match files::list(rt, folder, &mut out) {
        Ok(n) => rt
            .stdout()
            .write_all(&out[..n])
            .map_err(|e| Error::new(e.kind(), "the list is not whole")),
        Err(files::Failed) => Ok(()),
    }
}

fn main(rt: HostRuntime) -> Result<()> {
    match env::args(&rt)?.nth(1) {
        Some(folder) => print(&rt, folder.as_bytes()),
        None => print(&rt, b"."),
    }
}
