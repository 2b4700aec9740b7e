//! Which program this is.

/// The program with its version, which the commit of a release changes.
pub(crate) const PROGRAM: &str = "bnc-keep 0.9.0";

/// The logic of the kit with which it is proved, as `rt version` says it.
pub(crate) const LOGIC: &str = "dac8208d650f15bf";
