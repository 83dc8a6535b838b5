//! Messages and their responses.

ghost use Rattle.std.specs.Prelude.{◌≡◌};
ghost use Rattle.grpc_frame.specs.declared.limits.TheConstants.{MESSAGE_LIMIT};
ghost use Rattle.call_append.specs.declared.responses.TheConstants.{FIELDS_ERROR};
ghost use Rattle.call_append.specs.declared.texts.TheConstants.{SHOWN_CHARACTERS, MAX_TEXT_BYTES};
ghost use Rattle.row_decode.specs.declared.faults.TheConstants.{MAX_FAULTS};
ghost use Rattle.row_descriptor.specs.declared.field.TheConstants.{MAX_NUMBER};

/// A message has 10 MB at most, as BigQuery's AppendRows; of its rows 100 errors are named, a text shows 128 characters
/// of a name and has 1,024 bytes at most: limits of this server. `RowErrorCode.FIELDS_ERROR` is 1. The greatest number of
/// a protobuf field is 2^29 - 1.
pub fn calls_in_figures()
    ensures message { MESSAGE_LIMIT ≡ 10485760 }
    ensures faults { MAX_FAULTS ≡ 100 }
    ensures shown { SHOWN_CHARACTERS ≡ 128 }
    ensures text { MAX_TEXT_BYTES ≡ 1024 }
    ensures row_error { FIELDS_ERROR ≡ 1 }
    ensures number { MAX_NUMBER ≡ 536870911 }
{}
