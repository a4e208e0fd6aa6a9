// The cue file of the motor board (02, [3]): what it looks like and what its writer and reader answer are the rules in `specs/`, that both undo each other the
// laws in `proofs/`. Here stand the numbers of version 1 that writer and reader share, and what the reader finds of a clip.
#![tactic(auto)]

use tables::layout;
use text::Span;

// The widths of the fields in bytes. A clip's record:
pub const SECONDS: usize = 4;

pub const NANOSECONDS: usize = 4;

pub const URI_LENGTH: usize = 2;

// The trailer: the place of the records, the place of the URIs, how many clips there are, the version.
pub const RECORDS: usize = 4;

pub const URIS: usize = 4;

pub const COUNT: usize = 2;

pub const VERSION: usize = 2;

pub const CLIP_WIDTH: usize = SECONDS + NANOSECONDS + URI_LENGTH;

pub const TRAILER_WIDTH: usize = RECORDS + URIS + COUNT + VERSION;

// The version's number.
pub const VERSION_1: u64 = 1;

// The most clips, and the longest URI, that a field of two bytes holds.
pub const LARGEST_COUNT: usize = 65_535;

pub const LARGEST_URI: u64 = 65_535;

// The latest start, in ns.
pub const LARGEST_START: u64 = 1_000_000 * layout::SECOND;

// A clip's start in ns, its URI's span in the file, and how many clips the file has.
#[derive(Clone, Copy)]
pub struct Found {
    pub start: u64,
    pub uri: Span,
    pub clips: usize,
}
