// The list program's files: what is wrong with them before anything in them is looked at, and the parts of QUERY and PLACE.
#![tactic(auto)]

mod tested;

ghost use Rattle.std.specs.Prelude.{◌≡◌, ◌/◌, ◌≤◌, true, false, length, option_copied, MatchOption, MatchResult};
ghost use Rattle.std.specs.Float.{binary32};
ghost use Rattle.std.specs.Float.Ieee.{of_bits};
ghost use Rattle.le.specs.Le.{paste};
ghost use Rattle.listing_input.specs.Files.{files_of, all_of, overlong as too_large, is_too_long, is_bad_input, input_of};
ghost use Rattle.listing_input.specs.Parts.{query_of, newline_at};

pub use tested::Whole;

pub const MAX_FILE_BYTES: usize = 65536;

// The six files, each of them if it is there.
#[derive(Clone, Copy)]
pub struct Input<'a> {
    pub manifest: Option<&'a [u8]>,
    pub segments: Option<&'a [u8]>,
    pub cache: Option<&'a [u8]>,
    pub query: Option<&'a [u8]>,
    pub call: Option<&'a [u8]>,
    pub place: Option<&'a [u8]>,
}

// What is printed alone.
#[derive(Clone, Copy, PartialEq, Eq, Debug)]
pub enum InputError {
    TooLong,
    BadInput,
}

// Where the first newline stands.
pub fn newline_at(place: &[u8]) -> Option<usize>
    ensures { result ≡ newline_at place.now }
{
    place.iter().position(|b| *b == b'\n')
}

// A file that is there and too long.
fn overlong(file: Option<&[u8]>) -> bool
    ensures { result ≡ too_large (option_copied file.entry) }
{
    match file {
        Some(bytes) => MAX_FILE_BYTES < bytes.len(),
        None => false,
    }
}

#[tactic(auto, unfolding(crate::specs::Files::is_too_long, crate::specs::Files::some))]
fn too_long(files: &Input) -> bool
    ensures { result ≡ is_too_long (files_of files.now) }
{
    overlong(files.manifest)
        | overlong(files.segments)
        | overlong(files.cache)
        | overlong(files.query)
        | overlong(files.call)
        | overlong(files.place)
}

// The files, unless one of them is missing, or QUERY, CALL or PLACE holds what it may not.
#[tactic(auto, unfolding(crate::specs::Files::is_bad_input, crate::specs::Files::some))]
fn unspoilt<'a>(files: &Input<'a>) -> Option<Whole<'a>>
    requires { is_too_long (files_of files.now) ≡ false }
    ensures { MatchOption result
        (is_bad_input (files_of files.now) ≡ true)
        (λ whole. (is_bad_input (files_of files.now) ≡ false) × (files_of files.now ≡ all_of whole)) }
{
    let manifest = files.manifest?;
    let segments = files.segments?;
    let cache = files.cache?;
    let query = files.query?;
    let call = files.call?;
    let place = files.place?;
    if query.len() % 4 != 0 || call.len() != 8 {
        return None;
    }
    let newline = newline_at(place)?;
    Some(Whole {
        manifest,
        segments,
        cache,
        query,
        call,
        place,
        newline,
    })
}

// The first tests, `too long` before `bad input`.
pub fn check_input<'a>(files: &Input<'a>) -> Result<Whole<'a>, InputError>
    ensures { MatchResult result
        (λ whole. (input_of (files_of files.now) ≡ Ok tt) × (files_of files.now ≡ all_of whole))
        (λ error. input_of (files_of files.now) ≡ Err error) }
{
    if too_long(files) {
        return Err(InputError::TooLong);
    }
    unspoilt(files).ok_or(InputError::BadInput)
}

// The f32 of a pattern, a NaN for every NaN's.
fn value(bits: u32) -> f32
    ensures { result ≡ of_bits binary32 bits }
{
    if 2139095040 < bits % 2147483648 {
        return f32::NAN;
    }
    f32::from_bits(bits)
}

// The query's f32s; bytes behind the last whole one are not read.
pub fn read_query(query: &[u8], out: &mut [f32])
    requires { length query.now / 4 ≤ length out.old }
    ensures { out.new ≡ paste out.old 0 (query_of query.now) }
{
    for i in 0..query.len() / 4 {
        out[i] = value(le::u32_at(query, 4 * i));
    }
}
