// Laws only: what the table of a list that was read says to those who go over it, to the clock its lengths and rule 9, to who shows URIs their spans.
// The programs `sheet` and `cue` rest on it.
#![tactic(auto)]
