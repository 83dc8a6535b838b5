//! The three truth values of SQL.

ghost use Rattle.std.specs.Prelude.{◌≡◌};
ghost use Rattle.column_types.specs.Truth.{not_of, and_of, or_of, truth_from};

/// SQL's three truth values. A row is kept where the truth is `Yes`.
#[derive(Clone, Copy, Debug, PartialEq, Eq)]
pub enum Truth {
    Yes,
    No,
    Unknown,
}

impl Truth {
    /// `NOT self`: swaps yes and no, and keeps unknown.
    pub fn negated(self) -> Truth
        ensures { result ≡ not_of self }
    {
        match self {
            Truth::Yes => Truth::No,
            Truth::No => Truth::Yes,
            Truth::Unknown => Truth::Unknown,
        }
    }

    /// `self AND other`: no where one is no, yes where both are yes, else unknown.
    pub fn and(self, other: Truth) -> Truth
        ensures { result ≡ and_of self other }
    {
        match (self, other) {
            (Truth::No, _) | (_, Truth::No) => Truth::No,
            (Truth::Yes, Truth::Yes) => Truth::Yes,
            _ => Truth::Unknown,
        }
    }

    /// `self OR other`: yes where one is yes, no where both are no, else unknown.
    pub fn or(self, other: Truth) -> Truth
        ensures { result ≡ or_of self other }
    {
        match (self, other) {
            (Truth::Yes, _) | (_, Truth::Yes) => Truth::Yes,
            (Truth::No, Truth::No) => Truth::No,
            _ => Truth::Unknown,
        }
    }
}

impl From<bool> for Truth {
    ghost from_gives = { λ holds truth. truth ≡ truth_from holds };

    fn from(holds: bool) -> Truth {
        if holds { Truth::Yes } else { Truth::No }
    }
}
