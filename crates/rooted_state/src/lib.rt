// What arrays hold in a trial by crews with roots (document 01, a "yard" trial): what is prepared once a question, and
// what is placed at a limit. See specs/, and the laws of it in proofs/. There is no code here.
#![tactic(auto)]
