//! What the definitions of a message come to. These functions do nothing: each has a law about
//! messages as its contract.

ghost use Rattle.std.specs.Prelude.{◌≡◌, ◌≤◌, ◌+◌, ◌-◌, ℕ, List, [], ◌∷◌, length, sum_by, Some, None, Ok, Err};
ghost use Rattle.std.specs.List.{AllByRecursion};
ghost use Rattle.proto_fields.specs.Varint.{varint_at, varint_of};
ghost use Rattle.proto_fields.specs.Record.{Record, record_at};
ghost use Rattle.proto_fields.specs.Message.{fields_of, message_of, HasSpelling};
ghost use Rattle.proto_fields.specs.Selection.{payloads_of};

/// What [`Out`](super::Out) writes, [`fields`](super::fields) reads back: records in their shortest
/// spelling are the fields of the message that they make.
pub fn reads_back()
    ensures { (records : List Record) → AllByRecursion HasSpelling records → fields_of (message_of records) ≡ Ok records }
{}

/// A message is empty, or it is a record and the message behind it. It is refused at its first
/// record that can't be read.
pub fn one_record_after_another()
    ensures empty { fields_of [] ≡ Ok [] }
    ensures record_and_others { (bytes rest : List ℕ) (first : Record) (others : List Record) → record_at bytes ≡ Some (first, rest) → fields_of rest ≡ Ok others → fields_of bytes ≡ Ok (first ∷ others) }
    ensures bad_behind { (bytes rest : List ℕ) (first : Record) (at : ℕ) → record_at bytes ≡ Some (first, rest) → fields_of rest ≡ Err at → fields_of bytes ≡ Err (at + (length bytes - length rest)) }
    ensures bad { (b : ℕ) (bytes : List ℕ) → record_at (b ∷ bytes) ≡ None → fields_of (b ∷ bytes) ≡ Err 0 }
{}

/// No spelling of a number is shorter than the varint that is written.
pub fn varints_are_shortest()
    ensures { (bytes rest : List ℕ) (n : ℕ) → varint_at bytes ≡ Some (n, rest) → length (varint_of n) + length rest ≤ length bytes }
{}

/// The payloads of one field, with a byte more for the tag of each, are together no longer than their
/// message. So messages nest less deep than the outermost has bytes.
pub fn payloads_are_shorter()
    ensures { (bytes : List ℕ) (records : List Record) (number : ℕ) → fields_of bytes ≡ Ok records → sum_by (λ p. length p + 1) (payloads_of number records) ≤ length bytes }
{}
