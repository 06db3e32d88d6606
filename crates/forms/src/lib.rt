// The forms of a table's lines as what they are, apart from any reader: the definitions are in specs/, with the claim that the readers of
// `grammar` read exactly these. There is no code.
#![tactic(auto)]
