//! The numbers below 0 that exported functions answer.

/// There is no such level.
pub(crate) const NO_LEVEL: i32 = -1;

/// The text or the lists need more room than there is.
pub(crate) const NO_ROOM: i32 = -2;

/// A number is unknown.
pub(crate) const BAD_NUMBER: i32 = -3;

/// No word of the level says it.
pub(crate) const NO_WORD: i32 = -4;

/// The call, its rights or its kind of VMs is unknown.
pub(crate) const BAD_STEP: i32 = -5;

/// A number of the reply is unknown.
pub(crate) const BAD_REPLY: i32 = -6;

/// The layout hasn't the CPU.
pub(crate) const BAD_CPU: i32 = -7;

/// The layout is refused.
pub(crate) const BAD_LAYOUT: i32 = -8;

/// The state before the call, or a kept one, is refused.
pub(crate) const BAD_BEFORE: i32 = -9;

/// The state after the call is refused.
pub(crate) const BAD_AFTER: i32 = -10;

/// The call releases a slot whose generation is the greatest number.
pub(crate) const LAST_GENERATION: i32 = -11;

/// Memory was refused.
pub(crate) const NO_MEMORY: i32 = -12;

/// The pages of tables or their roots are refused, or no trees.
pub(crate) const BAD_TABLES: i32 = -13;
