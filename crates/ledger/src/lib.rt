// The ledger beside a run, and demand 3: a sender's books, no more credits and requests than slots, and when a SEND meets a full buffer.
// It has definitions and theorems and no code: what they are about is the machine's own steps.
#![tactic(auto)]
