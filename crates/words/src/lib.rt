// The table as flat words and as a list of records, in specs/: the one room that knows how a record is laid out.
#![tactic(auto)]
