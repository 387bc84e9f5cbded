// What the list program prints of each folder that the arguments name, after a line with the folder's name. make/README.md says what the
// folders hold and how they were made.
#![tactic(auto)]

use std::env;
use std::io::{Result, Write};

fn case(rt: &HostRuntime, folder: &str) -> Result<()> {
    let mut out = listing_text::buffer();
    let listed = files::list(rt, folder.as_bytes(), &mut out);
    println!(rt; "{folder}")?;
    match listed {
        Ok(n) => rt.stdout().write_all(&out[..n]),
        Err(files::Failed) => Ok(()),
    }
}

fn main(rt: HostRuntime) -> Result<()> {
    for folder in env::args(&rt)?.skip(1) {
        case(&rt, folder.as_str())?;
    }
    Ok(())
}
