// No code: what is promised of more than one call together, and the examples of 01 that are marked P.

#![tactic(auto)]
