//! Lemmas over what sites have, told by bare functions: locks, slow commits, sessions, owners, numbers, logs and marks.
#![tactic(auto)]
