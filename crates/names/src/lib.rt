// A cache of names as a map from slot to name, whatever its form: statements with no code. What a form of cache is, and what a header leaves
// of one, stands in specs/Form.antt; what holds for every form, in proofs/. The slots of the crate cache are the first form.

#![tactic(auto)]
