// Cards that take the places of old ones: stated over the definitions that the promises cite. There is no code here.
#![tactic(auto)]
