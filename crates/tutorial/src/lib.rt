// The tutorial's cases, what request 12 of 02 promises of them, and its two backgrounds; the proofs are in proofs/.
#![tactic(auto)]
