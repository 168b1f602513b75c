// Log records: the 24 bytes of a macroblock, one command read to its record, and one record written as its command.
#![tactic(auto)]
