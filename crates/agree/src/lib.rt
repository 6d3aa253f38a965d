// What a head answers, by document 01's sentences: specs/Head.antt, by what reading answers at the same place and by the fields there. That
// the code of heads answers this is in proofs/Promised.antt, by `head-is` in proofs/HeadIs.antt; proofs/AsReading.antt has the refusals.
// The head of a term is that term's own fields by its tree (proofs/OfTree.antt), and the value of a big integer, and the integers of a
// tag 107, are made of what the head says (proofs/Values.antt).

#![tactic(auto)]
