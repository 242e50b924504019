// Lists that have a number for each place, and when a list is one.
//
// Rests on nothing.
#![tactic(auto)]
