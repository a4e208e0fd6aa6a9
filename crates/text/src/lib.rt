// What stands at a place of a playlist's text: the rules (nom's combinators; parser.rs, "Util" and "Basic tags"; RFC 3629) in `specs/`, their laws in
// `proofs/`, and here the values that the answers of the floors above are made of. A rule that fails says why, and each answer carries the same reason.
#![tactic(auto)]

// A part of the text: from its first byte to the place after its last.
#[derive(Clone, Copy)]
pub struct Span {
    pub start: usize,
    pub end: usize,
}

// Why a rule fails: the first thing met.
#[derive(Clone, Copy)]
pub enum Why {
    OtherText,
    NoDigits,
    TooLarge,
    MissingByte,
    TypeEmpty,
    NameEmpty,
    NoUri,
    UriNotQuoted,
    RangeNotQuoted,
    RangeBad,
    LoneCr,
}

// nom's `IResult`: a rule's value and the place after it, or why the rule fails.
pub type IResult<T> = Result<(T, usize), Why>;
