ghost use Rattle.std.specs.Prelude.{ℕ, ◌<◌, ◌^◌, List, Bool, length};
ghost use Rattle.call_body.specs.Answers.{AnswersOne};

use outside::Blob;
use std::alloc::Global;

/// What one message of a call is answered.
#[derive(Drop)]
pub enum Answer {
    /// The message can be read, and this is its reply.
    Reply(Blob),
    /// The message can't be read.
    Unreadable,
    /// Want of memory.
    Memory,
}

/// What answers the messages of one call, one after another.
pub trait Answers {
    // Whether a message can be read.
    ghost readable: { List ℕ → Bool };

    // The state, a message, its reply, and the state behind it.
    ghost answers: { Self → List ℕ → List ℕ → Self → Type 0 };

    /// Answers the next message, which is shorter than 2^32 bytes. A message that can't
    /// be read changes nothing; after want of memory the message was not answered, or its reply is
    /// lost.
    fn answer(&mut self, alloc: Global, message: &[u8]) -> Answer
        requires { length message.now < 2 ^ 32 }
        ensures one { AnswersOne readable answers self.old self.new message.now result };
}
