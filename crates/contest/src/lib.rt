// The contest of 7.5.2 as a definition, and what it promises: theorems alone. The crate levels has the code.

#![tactic(auto)]
