// Claims alone: there is no code here.

#![tactic(auto)]
