// What decoding answers: the log of a batch.
#![tactic(auto)]
