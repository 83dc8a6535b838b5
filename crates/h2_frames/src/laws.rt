//! The laws of reading and writing frames.

ghost use Rattle.h2_frames.specs.Run.{IsReadingOfAll, IsOneReading, IsLasting};
ghost use Rattle.h2_frames.specs.Laws.{IsGiven, IsSpelled, IsMoreExactly, IsSound, IsCondition, IsWritten, IsOneFraming, IsReadOn};

/// However a client's stream is cut into pieces, a reader's frames are those of the whole, and it holds what follows
/// them: a law over every run of [`crate::FrameReader`]'s calls. It computes nothing.
pub fn readings_agree()
    // What was given is spelled by the stream, in order, and what is held is the rest.
    ensures all { IsReadingOfAll }

    // Two readers of one stream that give no further frame gave the same frames and hold the same bytes.
    ensures one { IsOneReading }

    // A fault is the answer from then on, whatever bytes follow.
    ensures lasting { IsLasting }
{}

/// The spellings of frames, their reading and their writing agree: laws of the definitions that the contracts of
/// [`crate::FrameReader`] and [`crate::write_frame`] cite. It computes nothing.
pub fn spellings_are_read()
    // Each spelling is read as its frame, and nothing else is.
    ensures given { IsGiven }
    ensures only { IsSpelled }

    // The frames of some bytes are those and no others, and stay when bytes follow.
    ensures one { IsOneFraming }
    ensures onward { IsReadOn }

    // When more bytes are wanted.
    ensures more { IsMoreExactly }

    // What holds of each frame that is read, and which frames may be written.
    ensures sound { IsSound }
    ensures condition { IsCondition }

    // What is written is read again.
    ensures written { IsWritten }
{}
