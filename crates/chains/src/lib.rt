// Attribute lists read with a memory of the lists that were read before, so that many lists that fail take linear time in all: a list may run to the text's
// end, and where it makes no tag it is read again from the next line on.
// A list is a chain of pairs, each beginning where the one before ends. Two chains that are within a name at one place have the same `=`, within a quoted
// value the same closing quote mark, and are one chain from there on. A list begins behind a tag at a line's beginning, where a chain can only be within a name
// or within a quoted value: so at most two different chains go on there, however many lists began before.
// What is kept is true of the text, whatever was read before (`specs/Kept.antt`): a list that is read with it is the list that is there.
#![tactic(auto)]

pub mod kept; // what is kept, as words that the caller lends
pub mod chain; // along a chain
pub mod failing; // names that make no pair
pub mod list; // a list, read beside what is kept
pub mod ext_map; // the list of a MAP
