//! Laws of records and logs. They compute nothing.

ghost use Rattle.conn_record.specs.Cutting.{IsUncut, IsContinued};
ghost use Rattle.conn_record.specs.Pieces.{HoldsUnfinished, PiecesAreFramed, NothingBehindBroken};
ghost use Rattle.conn_record.specs.Read.{TimelinesAreRead};
ghost use Rattle.conn_record.specs.Sending.{FrontsHoldNoFrame, PartsAreSent, AllAreSent, OwnStays, OwnIsSent};
ghost use Rattle.conn_record.specs.Fronts.{TextsAreFronts, ControlIsFront, ResetsAreFronts, DueInPlace, OnlyServerFrames, DataWithinWindows, DueGoesOn};
ghost use Rattle.conn_record.specs.Giving.{LiveTextGoesOn};
ghost use Rattle.conn_record.specs.Quiet.{RestIsQuiet, RestIsSaid, FullIsMuch};
ghost use Rattle.conn_record.specs.Marks.{MarksChangeNothing, TimelinesAreUnmarked, OutsStand, TimelinesAreSpelled, SoundIsUnbroken};

/// How a log's frames are found: byte by byte, and so however the bytes were cut. It computes nothing.
pub fn logs_are_framed()
    // Logs of the same bytes have the same frames.
    ensures uncut { IsUncut }
    ensures continued { IsContinued }

    // What is held of a log is unfinished, and a piece that a reader of frames asked for is framed as it answers.
    ensures unfinished { HoldsUnfinished }
    ensures pieces { PiecesAreFramed }
    ensures broken { NothingBehindBroken }

    // The frames that came are those that the bytes spell.
    ensures read { TimelinesAreRead }
{}

/// How frames that are written become whole, in whatever pieces they went. It computes nothing.
pub fn frames_are_sent()
    ensures fronts { FrontsHoldNoFrame }
    ensures parts { PartsAreSent }
    ensures all { AllAreSent }

    // The bytes stay the server's own spelling of the frames.
    ensures own { OwnStays }
    ensures own_sent { OwnIsSent }
{}

/// What follows for a whole record where each frame that went was due in its place. It computes nothing.
pub fn frames_keep_order()
    // What was written is a front of what was to be written.
    ensures texts { TextsAreFronts }
    ensures control { ControlIsFront }
    ensures resets { ResetsAreFronts }

    // Each frame, at its place.
    ensures place { DueInPlace }
    ensures kinds { OnlyServerFrames }
    ensures windows { DataWithinWindows }
    ensures goes_on { DueGoesOn }
    ensures live { LiveTextGoesOn }
{}

/// Where nothing that is due fits [`crate::LEAST_ROOM`], a connection is quiet. It computes nothing.
pub fn rest_is_quiet()
    ensures quiet { RestIsQuiet }
    ensures said { RestIsSaid }
    ensures full { FullIsMuch }
{}

/// The marks of a record change no frame. It computes nothing.
pub fn marks_change_nothing()
    ensures same { MarksChangeNothing }
    ensures outs { OutsStand }

    // A timeline has none, and each frame in it that came was spelled.
    ensures unmarked { TimelinesAreUnmarked }
    ensures spelled { TimelinesAreSpelled }
    ensures unbroken { SoundIsUnbroken }
{}
