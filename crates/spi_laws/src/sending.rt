//! Spi_SyncTransmit: that a call that sends a sequence and waits is right at each of its places. Laws alone.
