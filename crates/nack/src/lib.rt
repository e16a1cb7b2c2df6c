// The generic NACK of RFC 4585, section 6.2.1: definitions of what entries name and of the entries of a set (specs/), and the laws
// that join them (proofs/). The crates nack_read and nack_write hold the code.
#![tactic(auto)]
