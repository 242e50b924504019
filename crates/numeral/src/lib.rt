// A text for each number, so that what is asked by number stands in a list of commands as what is asked by text.
//
// Rests on errno, digits and number.
#![tactic(auto)]
