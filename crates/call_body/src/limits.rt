ghost use Rattle.std.specs.Prelude.{◌≡◌};
ghost use Rattle.grpc_frame.specs.declared.limits.TheConstants.{MESSAGE_LIMIT};
ghost use Rattle.call_body.specs.declared.limits.TheConstants.{BODY_LIMIT};

/// The longest body of a call that the program reads, in bytes.
pub const BODY_LIMIT: usize = 1_073_741_824;

/// How many bytes are asked of the source at a time, at most.
pub const PIECE_LEN: usize = 65_536;

/// The limits in figures, as a law. It does nothing when it runs.
pub fn limits_in_figures()
    ensures message { MESSAGE_LIMIT ≡ 10485760 }
    ensures body { BODY_LIMIT ≡ 1073741824 }
{}
