// What a range with its end gives, for proofs about iterators over one.
//
// Rests on nothing.
#![tactic(auto)]
