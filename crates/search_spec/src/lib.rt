// What a search is lent, returns and looks at, as plain data. What a search is stands in specs/: what is lent to it, its tests in their
// order, its lists and its outcome.
#![tactic(auto)]

// What is lent beside the kept rows and what a call writes. Without `wanted` every id is.
#[derive(Clone, Copy)]
pub struct Call<'a> {
    pub manifest: &'a [u8],
    pub segments: &'a [u8],
    pub wanted: Option<&'a [u64]>,
    pub query: &'a [f32],
    pub k: usize,
    pub limit: usize,
}

// The answer slices.
#[derive(Drop)]
pub struct Answers<'a> {
    pub ids: &'a mut [u64],
    pub distances: &'a mut [f64],
    pub rows: &'a mut [u64],
    pub starts: &'a mut [u64],
    pub lengths: &'a mut [u32],
}

// The working slices: two for the candidates, one for the ids handed in.
#[derive(Drop)]
pub struct Work<'a> {
    pub keys: &'a mut [u64],
    pub candidates: &'a mut [u64],
    pub ids: &'a mut [u64],
}

// The lengths of the slices that a search writes.
#[derive(Clone, Copy, Debug, PartialEq, Eq)]
pub struct Room {
    pub ids: usize,
    pub distances: usize,
    pub rows: usize,
    pub starts: usize,
    pub lengths: usize,
    pub keys: usize,
    pub candidates: usize,
    pub wanted: usize,
}

// A place of the list: a row with its id and distance, and where its metadata lies in the segments.
#[derive(Clone, Copy)]
pub struct Place {
    pub id: u64,
    pub distance: f64,
    pub row: u64,
    pub start: u64,
    pub length: u32,
}

// The Rust's `GenerationSearchReport`, with the count of places.
#[derive(Clone, Copy, Debug, PartialEq, Eq)]
pub struct Report {
    pub generation: u64,
    pub sequence: u64,
    pub eligible: usize,
    pub measured: usize,
    pub complete: bool,
    pub approximate: bool,
    pub count: usize,
}
