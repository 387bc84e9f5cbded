// The six files of the list program, read from a folder, and what the list program prints of them.
#![tactic(auto)]

ghost use Rattle.std.specs.Prelude.{◌≤◌, length, IfOk};
ghost use Rattle.io.specs.Counts.{IsPrefixLen};

use listing_input::Input;
use listing_text::LISTING_BYTES;
use std::fs;
use std::io::{ErrorKind, Read};
use std::rt::Files;
use text::Writer;

// A byte more than a file may have, so that one that is too long shows.
const BUFFER_BYTES: usize = listing_input::MAX_FILE_BYTES + 1;

// The longest path of a folder that leaves room for a file's name: a path has at most 4,095 bytes.
const FOLDER_BYTES: usize = 4086;

// Reading a file failed, which a line on standard error tells.
#[derive(Clone, Copy, PartialEq, Eq, Debug)]
pub struct Failed;

// No folder has an empty path, and no file one that is too long. A path is UTF-8 to std: one that is not cannot be opened.
fn open<R: Files>(rt: &R, folder: &[u8], name: &str) -> Option<R::File>
    requires { length name.now ≤ 8 }
{
    if folder.is_empty() || folder.len() > FOLDER_BYTES {
        return None;
    }
    let mut path = io::buffer();
    let mut w = Writer::new(&mut path);
    w.put_bytes(folder);
    w.put_bytes(b"/");
    w.put_bytes(name.as_bytes());
    let n = w.len();
    let path = str::from_utf8(&path[..n]).ok()?;
    fs::open(rt, path).ok()
}

// Reads up to the file's end, or until the buffer is full. A folder opens and cannot be read, and is no file; any other error is told.
fn fill<'a>(
    rt: &impl Eprint,
    file: &mut impl Read,
    name: &str,
    into: &'a mut [u8],
) -> Result<Option<&'a [u8]>, Failed> {
    let mut size = 0;
    while size < into.len() {
        match file.read(&mut into[size..]) {
            Ok(0) => break,
            Ok(more) => size += more,
            Err(error) => {
                if error.kind() == ErrorKind::IsADirectory {
                    return Ok(None);
                }
                // Where even that cannot be written, nobody is left to tell.
                let _ = eprintln!(rt; "{name}: {error}");
                return Err(Failed);
            }
        }
    }
    Ok(Some(&into[..size]))
}

// The file's bytes, if it is there.
fn read<'a>(
    rt: &(impl Files + Eprint),
    folder: &[u8],
    name: &str,
    into: &'a mut [u8],
) -> Result<Option<&'a [u8]>, Failed>
    requires { length name.now ≤ 8 }
{
    match open(rt, folder, name) {
        Some(mut file) => fill(rt, &mut file, name, into),
        None => Ok(None),
    }
}

// Reads the files of the call, those of the library read.
fn call(
    rt: &(impl Files + Eprint),
    folder: &[u8],
    manifest: Option<&[u8]>,
    segments: Option<&[u8]>,
    cache: Option<&[u8]>,
    out: &mut [u8; LISTING_BYTES],
) -> Result<usize, Failed>
    ensures { IfOk result (λ n. IsPrefixLen n out.new) }
{
    let mut query: [u8; BUFFER_BYTES] = text::zeros();
    let a = read(rt, folder, "QUERY", &mut query);
    let mut call: [u8; BUFFER_BYTES] = text::zeros();
    let b = read(rt, folder, "CALL", &mut call);
    let mut place: [u8; BUFFER_BYTES] = text::zeros();
    let c = read(rt, folder, "PLACE", &mut place);
    let input = Input {
        manifest,
        segments,
        cache,
        query: a?,
        call: b?,
        place: c?,
    };
    Ok(listing::list(&input, out))
}

// What the list program prints of the files of a folder: its bytes at the start of `out`, and how many there are. Where reading a file
// failed, no list is to be printed.
pub fn list(
    rt: &(impl Files + Eprint),
    folder: &[u8],
    out: &mut [u8; LISTING_BYTES],
) -> Result<usize, Failed>
    ensures { IfOk result (λ n. IsPrefixLen n out.new) }
{
    let mut manifest: [u8; BUFFER_BYTES] = text::zeros();
    let a = read(rt, folder, "MANIFEST", &mut manifest);
    let mut segments: [u8; BUFFER_BYTES] = text::zeros();
    let b = read(rt, folder, "SEGMENTS", &mut segments);
    let mut cache: [u8; BUFFER_BYTES] = text::zeros();
    let c = read(rt, folder, "CACHE", &mut cache);
    call(rt, folder, a?, b?, c?, out)
}
