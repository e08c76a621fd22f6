//! Turns of the converter driver: claims that end, rounds that are aborted and rounds that start, as steps of its windows.
