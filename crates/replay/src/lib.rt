// What the programs over test vectors have in common: how their input ends, and what they do where their output cannot be written.
#![tactic(auto)]

ghost use Rattle.std.specs.Prelude.{◌≡◌, ℕ, ◌≤◌, length, take, IfOk, IfErr, vec_len};
ghost use Rattle.std.specs.Io.KnownBytes.{Consumes};
ghost use Rattle.std.specs.IoError.{error_kind};

use std::alloc::Global;
use std::io::{ErrorKind, Read, Result};

// Reads until `into` is full, the input ends or a read fails, and says how many bytes that were.
pub fn fill<R: Read>(input: &mut R, into: &mut [u8]) -> usize
    ensures most { result ≤ length into.new }
    ensures bytes { Consumes (R.remaining input.old) (R.remaining input.new) (take result into.new) }
{
    let mut size = 0;
    while size < into.len() {
        match input.read(&mut into[size..]) {
            Ok(0) => break,
            Ok(more) => size += more,
            Err(_) => break,
        }
    }
    size
}

// So many bytes of the input, and zeros where it ends before.
pub fn bytes<R: Read>(input: &mut R, alloc: Global, n: usize) -> Result<Vec<u8>>
    ensures { IfOk result (λ bytes. (vec_len bytes ≡ n) × ((read : ℕ) × (read ≤ n) × Consumes (R.remaining input.old) (R.remaining input.new) (take read bytes.items))) }
{
    let mut bytes = vec![in alloc; 0; n]?;
    fill(input, &mut bytes);
    Ok(bytes)
}

// How a program ends. Where its output cannot be written it ends as elsewhere, since what it prints is compared; memory that runs out is told.
pub fn end(replayed: Result<()>) -> Result<()>
    ensures told { IfErr result (λ e. (error_kind e ≡ ErrorKind.OutOfMemory) × (result ≡ replayed)) }
    ensures passed_on { IfErr replayed (λ e. error_kind e ≡ ErrorKind.OutOfMemory → result ≡ replayed) }
{
    match replayed {
        Err(error) if error.kind() == ErrorKind::OutOfMemory => Err(error),
        _ => Ok(()),
    }
}
