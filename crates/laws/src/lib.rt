// Laws of truth values, of numbers and of lists that the proofs of several crates cite. There is no code here.
#![tactic(auto)]
