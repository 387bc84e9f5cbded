// The six files after the first tests.
ghost use Rattle.std.specs.Prelude.{◌≡◌, ◌%◌, ◌≤◌, Some, length};
ghost use Rattle.listing_input.specs.Parts.{max_file_bytes, newline_at};

// All six are there and none is too long: a QUERY of whole f32s, a CALL of two numbers, a PLACE with its first newline at `newline`.
#[derive(Clone, Copy)]
pub struct Whole<'a> {
    pub manifest: &'a [u8],
    pub segments: &'a [u8],
    pub cache: &'a [u8],
    pub query: &'a [u8],
    pub call: &'a [u8],
    pub place: &'a [u8],
    pub newline: usize,
    pub ghost manifest_short: { length manifest.now ≤ max_file_bytes },
    pub ghost query_short: { length query.now ≤ max_file_bytes },
    pub ghost floats: { length query.now % 4 ≡ 0 },
    pub ghost numbers: { length call.now ≡ 8 },
    pub ghost parted: { newline_at place.now ≡ Some newline },
}
