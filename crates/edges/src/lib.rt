// The readings (SPECIFICATION 15) and writings (SPECIFICATION 16.7) at the edges, as tables and statements. There is no code here.
#![tactic(auto)]
