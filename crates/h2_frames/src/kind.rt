//! The types of frames.

ghost use Rattle.std.specs.Prelude.{◌≡◌};

/// The type of a frame, in the order of RFC 9113 section 6.
#[derive(Clone, Copy, Debug, PartialEq, Eq)]
pub enum Kind {
    Data,
    Headers,
    Priority,
    RstStream,
    Settings,
    PushPromise,
    Ping,
    GoAway,
    WindowUpdate,
    Continuation,
    /// Any other byte.
    Unknown(u8),
}

impl Kind {
    ghost use Rattle.h2_frames.specs.Header.{kind_of};
    ghost use Rattle.h2_frames.specs.Spelling.{kind_byte};

    /// The type that the byte stands for.
    pub fn of(byte: u8) -> Kind
        ensures { result ≡ kind_of byte }
    {
        match byte {
            0 => Kind::Data,
            1 => Kind::Headers,
            2 => Kind::Priority,
            3 => Kind::RstStream,
            4 => Kind::Settings,
            5 => Kind::PushPromise,
            6 => Kind::Ping,
            7 => Kind::GoAway,
            8 => Kind::WindowUpdate,
            9 => Kind::Continuation,
            _ => Kind::Unknown(byte),
        }
    }

    /// The byte that stands for the type.
    pub fn byte(self) -> u8
        ensures { result ≡ kind_byte self }
    {
        match self {
            Kind::Data => 0,
            Kind::Headers => 1,
            Kind::Priority => 2,
            Kind::RstStream => 3,
            Kind::Settings => 4,
            Kind::PushPromise => 5,
            Kind::Ping => 6,
            Kind::GoAway => 7,
            Kind::WindowUpdate => 8,
            Kind::Continuation => 9,
            Kind::Unknown(byte) => byte,
        }
    }
}
