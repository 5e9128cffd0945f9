// Laws of walks, counts, searches, orders and lists, in specs/ and proofs/; there is no code here.
#![tactic(auto)]
