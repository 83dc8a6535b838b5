//! A machine that answers commands.

use outside::Memory;
use std::alloc::Global;

/// The latest reading of a clock that a step takes, in microseconds since 1970-01-01: six hours later is still in the
/// year 9999.
pub const LATEST_READING: i64 = 253_402_279_199_999_999;

/// A machine that answers commands, and adds an entry to its history where it accepts one. It also tells of its history.
///
/// It names two definitions: the replies, each with its entry or none, that a history, a caller, a command and a moment
/// allow, and the looks that a history and a key allow. `step` and `look` answer by them.
pub trait Machine: Drop {
    ghost use Rattle.std.specs.Prelude.{◌≡◌, ◌≤ℤ◌, ℕ, ℤ, List, Option, IfOk, length};
    ghost use Rattle.turn_table.specs.declared.machine.TheConstants.{LATEST_READING as latest};
    ghost use Rattle.turn_table.specs.Turn.{Steps, Carries};

    /// What it is asked.
    type Command;

    /// What it answers.
    type Reply;

    /// An accepted command.
    type Entry;

    /// What no call changes.
    type Fixed;

    /// What a look asks for.
    type Key;

    /// What a look tells.
    type Look;

    // The entries of the accepted commands, in their order.
    ghost history: { Self → List Self.Entry };

    // The fixed part.
    ghost fixed: { Self → Self.Fixed };

    // Some fixed part, whichever: what a pass that never acts would show.
    ghost anything: { Self.Fixed };

    // The commands that a machine with this fixed part takes.
    ghost takes: { Self.Fixed → Self.Command → Type 0 };

    // The caller that an entry carries.
    ghost caller_of: { Self.Entry → ℕ };

    // The replies, each with its entry or none, that a history, a caller, a command and a moment allow.
    ghost allows: { Self.Fixed → List Self.Entry → ℕ → Self.Command → ℤ → Self.Reply → Option Self.Entry → Type 0 };

    // The looks that a history and a key allow.
    ghost looks: { Self.Fixed → List Self.Entry → Self.Key → Self.Look → Type 0 };

    /// Answers a command of a caller. `now` is a reading of the clock, in microseconds since 1970-01-01.
    ///
    /// The reply is one that the history allows, and its entry, if it has one, is added. Want of memory keeps the
    /// history.
    fn step(
        &mut self,
        alloc: Global,
        caller: u32,
        command: Self::Command,
        now: i64,
    ) -> Result<Self::Reply, Memory>
        requires taken { takes (fixed self.old) command }
        requires in_time { now ≤ℤ latest }
        ensures fixed { fixed self.new ≡ fixed self.old }
        ensures steps { Steps caller_of (allows (fixed self.old)) (history self.old) (history self.new) caller command now result };

    /// Tells of the history what the key asks for. Nothing changes.
    ///
    /// The look is one that the history allows. Want of memory tells nothing.
    fn look(&self, key: &Self::Key) -> Result<Self::Look, Memory>
        ensures { IfOk result (looks (fixed self.now) (history self.now) key.now) };

    /// The length of the history.
    fn entries(&self) -> u64
        ensures { result ≡ length (history self.now) };
}
