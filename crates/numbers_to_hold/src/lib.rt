// A theorem alone: 01's "Numbers to hold on to", in specs/Table.antt.
#![tactic(auto)]
