// The leaves that every tag is read with (parser.rs, "Util" and "Basic tags"): lines, numbers, byte ranges; the first line, unknown tags, comments, types.
// Each function takes any text and any place, past the end too. Its contract is one equation with a rule of `text`.
// A rule that fails says why, and the answer here carries the same reason.
#![tactic(auto)]

pub mod util; // lines, numbers, byte ranges
pub mod basic_tags; // the first line, unknown tags, comments, playlist types
