// The user's demands and the paper's marked examples, as theorems over the definitions of the crates below. There is no code here.
#![tactic(auto)]
