// The demands on header lookup, stated over the definitions that the promises cite. There is no code here.
#![tactic(auto)]
