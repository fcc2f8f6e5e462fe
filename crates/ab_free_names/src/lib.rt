//! Among names with numbers behind a stem one is free, where not too many are taken: lemmas of the laws and of the program.
#![tactic(auto)]
