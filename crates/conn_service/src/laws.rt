//! Laws of one connection. They compute nothing.

ghost use Rattle.conn_service.specs.Laws.{ServedIsComputed, FirstAreAlone, ServedGoesOn, DueIsInOrder, AnswersAreInOrder, GoingBegins, RestIsQuiet, EndIsDone, EndIsCut, EndIsMemory};
ghost use Rattle.conn_service.specs.Steps.{WritesGoOn, WaitsGoOn, ReadsGoOn, FramesGoOn, FaultsEnd, GoawaysEnd, PartsEnd, FramesEnd};

/// What serving leaves of the passes; where no other pass acts, the answers and the histories are computed. It computes
/// nothing.
pub fn served_is_computed()
    ensures computed { ServedIsComputed }

    // The passes to new tables are alone.
    ensures first { FirstAreAlone }

    // Each pass has then seen a history that begins with what it had seen.
    ensures goes_on { ServedGoesOn }
{}

/// What follows where each frame was due in its place. It computes nothing.
pub fn due_is_in_order()
    ensures due { DueIsInOrder }

    // Where all is answered, the texts are the spellings of the answers.
    ensures answers { AnswersAreInOrder }
{}

/// What a loop over the frames of a connection keeps. It computes nothing.
pub fn loop_keeps()
    ensures begins { GoingBegins }

    // Where nothing that is due fits a room of [`conn_record::LEAST_ROOM`], the connection is quiet.
    ensures quiet { RestIsQuiet }

    // Where the client's bytes end and the connection is quiet, it was served.
    ensures done { EndIsDone }
    ensures cut { EndIsCut }

    // So it was where memory is wanting between two frames.
    ensures memory { EndIsMemory }
{}

/// What a loop keeps where frames are written, where the link waits and where frames are read. It
/// computes nothing.
pub fn loop_goes_on()
    // Frames that were due, one behind the other, were written whole.
    ensures writes { WritesGoOn }

    // The link waited where the connection was quiet.
    ensures waits { WaitsGoOn }

    // A piece of no more than the reader asks for was read: no frame is whole yet, or one is, and was heeded.
    ensures reads { ReadsGoOn }
    ensures frames { FramesGoOn }

    // The link met a fault behind a part of them.
    ensures fault { FaultsEnd }

    // A rule was broken, and GOAWAY is written.
    ensures goaway { GoawaysEnd }

    // A rule was broken, and the link met a fault before GOAWAY was written, or memory was wanting.
    ensures parts { PartsEnd }

    // Memory was wanting while a frame was heeded.
    ensures memory { FramesEnd }
{}
