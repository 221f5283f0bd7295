// Calls of card and centre one after the other: what their contracts say of each is in specs/, and that they say it in proofs/. There is no
// code here.
#![tactic(auto)]
