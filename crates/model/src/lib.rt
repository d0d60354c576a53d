// The specification of the engine. It has no code: the definitions stand in specs/, one file for each subject of document 01, and the
// theorems about them in proofs/.
#![tactic(auto)]
