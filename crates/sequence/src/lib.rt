// The place of a command in the sequence of a batch, and what one whole command comes to.
#![tactic(auto)]
