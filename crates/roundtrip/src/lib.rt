// What is written, read back, gives the same items: a statement over what the writer's bytes are and what every reader of records promises
// (proofs/RoundTrip.antt). There is no code here.

#![tactic(auto)]
