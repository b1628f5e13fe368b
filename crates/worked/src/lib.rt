// Worked blocks of DES and AES-256, which the prover computes. There is no code here: they stand apart so that they are worked out once, and not for each edit of
// what they are blocks of.
#![tactic(auto)]
