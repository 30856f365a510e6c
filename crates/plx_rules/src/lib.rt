//! What appliances and their world are allowed to do: the definitions, in `specs/`. There is no code.
#![tactic(auto)]
