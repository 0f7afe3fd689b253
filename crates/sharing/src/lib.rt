// What is proved of sharing: no code.
#![tactic(auto)]
