// Where each word of a record stands (01, "Clip record"): the code's only place for these numbers. `specs/Layout.antt` has them for the rules.

// A clip's record in the clip table.
pub const CLIP_WORDS: usize = 17;

pub const URI_START: usize = 0;

pub const URI_END: usize = 1;

pub const LENGTH: usize = 2;

pub const BITS: usize = 3;

pub const TITLE_START: usize = 4;

pub const TITLE_END: usize = 5;

pub const FLAGS: usize = 6;

pub const RANGE_LENGTH: usize = 7;

pub const RANGE_OFFSET: usize = 8;

pub const MAP_URI_START: usize = 9;

pub const MAP_URI_END: usize = 10;

pub const MAP_RANGE_LENGTH: usize = 11;

pub const MAP_RANGE_OFFSET: usize = 12;

pub const MAP_LIST_START: usize = 13;

pub const MAP_LIST_END: usize = 14;

pub const FIRST_TAG: usize = 15;

pub const TAG_COUNT: usize = 16;

// An unknown tag's record in the tag table.
pub const TAG_WORDS: usize = 4;

pub const NAME_START: usize = 0;

pub const NAME_END: usize = 1;

pub const REST_START: usize = 2;

pub const REST_END: usize = 3;

// A clip's record in a table of starts (02, [2]).
pub const START_WORDS: usize = 2;

pub const START_NS: usize = 0;

pub const START_TICK: usize = 1;

// A clip's record in a table of windows (02, [1]): what the call for one clip gives.
pub const WINDOW_WORDS: usize = 4;

pub const WINDOW_NUMBER: usize = 0;

pub const WINDOW_PRESENT: usize = 1;

pub const WINDOW_START: usize = 2;

pub const WINDOW_END: usize = 3;

// What a clip's flags add up from. A word of flags is below the limit.
pub const HAS_RANGE: u64 = 1;

pub const HAS_RANGE_OFFSET: u64 = 2;

pub const HAS_DISCONTINUITY: u64 = 4;

pub const HAS_MAP: u64 = 8;

pub const HAS_MAP_RANGE: u64 = 16;

pub const HAS_MAP_OFFSET: u64 = 32;

pub const FLAG_LIMIT: u64 = 64;

// The library's own limit of a text, in bytes; a program may have a smaller one.
pub const TEXT_LIMIT: usize = 65_536;

// A length in ns is below this: nine digits before the point and nine after it.
pub const LENGTH_LIMIT: u64 = 1_000_000_000_000_000_000;

// Ns in a second.
pub const SECOND: u64 = 1_000_000_000;
