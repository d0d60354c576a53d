// Corners of the specification, by computation: theorems about `model` alone, so that a change of a proof there does not compute them again. No code.
#![tactic(auto)]
