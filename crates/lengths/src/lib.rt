// Lengths in whole nanoseconds, exact, and what a playlist makes of them.
// A length is a u64 of ns; nothing here rounds twice or goes through a second float type.
// Each function takes any text and any place, or any u64. Its contract is one equation with a rule of `specs/`.
#![tactic(auto)]

pub mod duration; // EXTINF: digits to ns, and the title
pub mod binary32; // the binary32 nearest to a length's seconds
