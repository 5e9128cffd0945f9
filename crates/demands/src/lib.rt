// The demands on runs of calls, proved of the rules; there is no code here.
#![tactic(auto)]
