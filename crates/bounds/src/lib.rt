// How long the words of an entry can be, over the definitions that the promises cite. There is no code here.
#![tactic(auto)]
