//! The converter driver's reads of the newest round, and its handlers that serve rounds: that each step of them is right.
