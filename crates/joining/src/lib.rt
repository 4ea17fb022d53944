// The definitions of joining, lookup and belonging, and what is proved of them. There is no code here.
#![tactic(auto)]
