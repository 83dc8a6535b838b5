//! Resource names.

ghost use Rattle.std.specs.Prelude.{◌≡◌};
ghost use Rattle.resource_names.specs.declared.parts.TheConstants.{MAX_PART_BYTES, MAX_NAME_BYTES};

/// A part of a resource name has 128 bytes at most, a limit of this server, and a name 551: that of a read stream with
/// each part as long as it may be.
pub fn names_in_figures()
    ensures part { MAX_PART_BYTES ≡ 128 }
    ensures name { MAX_NAME_BYTES ≡ 551 }
{}
