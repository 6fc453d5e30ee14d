// The demands over the texts handed in and the bytes written; no code. proofs/OnTheCall states them of a call of merge that keeps its
// promise, proofs/OnCheck and proofs/OnTidy what the other two tell; the other files lead there.
#![tactic(auto)]
