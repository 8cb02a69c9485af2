// How a call's refusal is read off the list of its causes. This crate stands below the layers and has no code: the definition is in
// specs/Refusals, its laws in proofs/Laws.
#![tactic(auto)]
