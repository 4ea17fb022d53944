// That each public contract admits one answer and one content of lent memory. There is no code here.
#![tactic(auto)]
