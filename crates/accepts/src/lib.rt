// Reading is Done exactly where a laid tree stands, nested within the limit: statements over the definition of reading and the layouts
// (proofs/Accepts.antt). There is no code here, and no reader below.

#![tactic(auto)]
