//! The oracle for C: words of tables decoded and encoded, traces replayed, calls judged and predicted, and tables walked. What each function
//! takes and answers is written down in include/pkvm_oracle.h too.
#![tactic(auto)]

ghost use Rattle.std.specs.Prelude.{◌≡◌, pos};

mod audited;
mod booted;
mod judged;
pub mod laws;
mod legal;
mod predicted;
mod replayed;
mod statuses;
mod suggested;
mod texts;
mod traced;
mod words;

/// The version of these functions and structs, 3.0.0: the first 32 bits change if a program that uses them has to, the
/// next 16 if something is added, and the last 16 else.
pub const VERSION: u64 = 0x300000000;

/// 1, since the toolchain builds only what is proved. An unproved build is made of these sources with 0 here.
const IS_PROVED: i32 = 1;

/// The version.
#[unsafe(no_mangle)]
pub extern "C" fn pkvm_version() -> u64
    ensures { result ≡ 0x300000000 }
{
    VERSION
}

/// Whether this library is a proved build. An unproved one is made of sources with 0, which the toolchain refuses.
#[unsafe(no_mangle)]
pub extern "C" fn pkvm_is_proved() -> i32
    ensures { result ≡ pos 1 }
{
    IS_PROVED
}
