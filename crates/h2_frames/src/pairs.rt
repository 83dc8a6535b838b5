//! The pairs of a SETTINGS frame.

ghost use Rattle.std.specs.Prelude.{◌≡◌};

use std::marker::Model;

/// The bytes of a pair (RFC 9113 section 6.5.1).
pub(crate) const PAIR_LEN: usize = 6;

/// One setting, by its identifier (RFC 9113 section 6.5.1).
#[derive(Clone, Copy, Debug, PartialEq, Eq)]
pub struct Pair {
    /// The identifier; an unknown one is kept.
    pub id: u16,
    /// The value.
    pub value: u32,
}

/// The pairs of a SETTINGS frame, in their order. Contracts see the list.
#[derive(Drop)]
pub struct Pairs {
    items: Vec<Pair>,
}

impl Model for Pairs {
    ghost use Rattle.std.specs.Prelude.{List};
    ghost use Rattle.h2_frames.specs.declared.pairs.Pair.{Pair};

    ghost Value = { List Pair };

    ghost view = { λ p. p.items.items };
}

impl Pairs {
    /// The pairs of a vector, without a copy.
    pub fn from_vec(items: Vec<Pair>) -> Pairs
        ensures { result ≡ items.items }
    {
        Pairs { items }
    }

    /// The pairs.
    pub fn items(&self) -> &[Pair]
        ensures { result.now ≡ self.now }
    {
        self.items.as_slice()
    }

    /// The pairs as a vector, without a copy.
    pub fn into_vec(self) -> Vec<Pair>
        ensures { result.items ≡ self }
    {
        self.items
    }
}
