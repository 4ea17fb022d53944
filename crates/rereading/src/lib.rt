// What is written reads back: stated over the definitions that the promises cite. There is no code here.
#![tactic(auto)]
