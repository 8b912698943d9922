// The marked cases of document 01, P1 to P12. There is no code here: one table of cases, and one statement that all of them hold of the definitions of the codec, the
// monitor and the log.
#![tactic(auto)]
