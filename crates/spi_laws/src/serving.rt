//! The serving window of a unit of the serial driver: that each of its steps is right. There is no code here that runs.
