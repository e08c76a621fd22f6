//! The start window of a serial unit: that it is right at each of its places. Laws alone.
