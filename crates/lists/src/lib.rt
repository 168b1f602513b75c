// Laws of lists and tests that no subject owns, and the steps along a list of calls.
#![tactic(auto)]
