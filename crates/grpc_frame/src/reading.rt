ghost use Rattle.std.specs.Prelude.{◌≡◌, ◌≢◌, ℕ, ◌<◌, ◌^◌, ◌++◌, List, slice_index};
ghost use Rattle.grpc_frame.specs.Part.{part_of};
ghost use Rattle.grpc_frame.specs.Messages.{Messages};
ghost use Rattle.grpc_frame.specs.Split.{Split, split_of};

use crate::part::Part;

/// The law of reading. It does nothing when it runs.
///
/// A body of bytes has one list of messages and one rest. To read it in two pieces, the second
/// behind the rest of the first, gives what reading it whole gives. What a body begins with, other
/// than `More`, stays when bytes follow. The split of a body, which is a function, is its reading.
pub fn one_reading()
    ensures some { (limit : ℕ) (body : List ℕ) → ((i : ℕ) → slice_index body i < 2 ^ 8) →
        (messages : List (List ℕ)) × (rest : List ℕ) × Messages limit body messages rest }
    ensures unique { (limit : ℕ) (body : List ℕ) (a b : List (List ℕ)) (x y : List ℕ) → limit < 2 ^ 32 →
        Messages limit body a x → Messages limit body b y → (a ≡ b) × (x ≡ y) }
    ensures cut { (limit : ℕ) (body piece : List ℕ) (a b : List (List ℕ)) (x y : List ℕ) →
        Messages limit body a x → Messages limit (x ++ piece) b y →
        Messages limit (body ++ piece) (a ++ b) y }
    ensures stays { (limit : ℕ) (body piece : List ℕ) → part_of limit body ≢ Part.More →
        part_of limit (body ++ piece) ≡ part_of limit body }
    ensures split { (limit : ℕ) (body : List ℕ) → limit < 2 ^ 32 → ((i : ℕ) → slice_index body i < 2 ^ 8) →
        Messages limit body (split_of limit body).messages (split_of limit body).rest }
    ensures split_is { (limit : ℕ) (body : List ℕ) (messages : List (List ℕ)) (rest : List ℕ) → limit < 2 ^ 32 →
        Messages limit body messages rest → split_of limit body ≡ record { messages = messages; rest = rest } }
{}
