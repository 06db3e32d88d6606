// A recording as it is written, in document 01's plain layout: the definitions are in specs/, with the claim that it is read as the steps
// that it was written from. There is no code.
#![tactic(auto)]
