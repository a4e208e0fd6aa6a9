// Attribute lists (parser.rs, `key_value_pairs` and what it is made of), and the MAP tag that is read with them.
// A list is walked once, pair by pair, for any number of names; of equal names the last holds. Nothing is copied: names and values are parts of the text.
// Each function takes any text and any place. Its contract is one equation with a rule of `specs/`.
#![tactic(auto)]

pub mod pair; // a name and its value
pub mod held; // what a list has under each of some names, as words
pub mod list; // pair after pair, and the last of each name
pub mod ext_map; // the list of a MAP
