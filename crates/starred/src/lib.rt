// Document 01's starred cases, proved together: see proofs/Starred.antt. No code.
#![tactic(auto)]
