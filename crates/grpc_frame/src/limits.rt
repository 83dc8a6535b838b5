ghost use Rattle.std.specs.Prelude.{◌≡◌};
ghost use Rattle.grpc_frame.specs.declared.limits.TheConstants.{MESSAGE_LIMIT};

/// The longest message of a call, in bytes.
pub const MESSAGE_LIMIT: u32 = 10_485_760;

/// The limit in figures, as a law. It does nothing when it runs.
pub fn limit_in_figures()
    ensures { MESSAGE_LIMIT ≡ 10485760 }
{}
