ghost use Rattle.std.specs.Prelude.{◌≡◌, ◌≤◌, ◌<◌, IsTrue, IfSome, drop};
ghost use Rattle.outside.specs.Scripts.{allowed_by, is_stream_script};

use std::marker::Model;

/// One call's piece in the script of a stream in memory.
#[derive(Clone, Copy, Debug, PartialEq, Eq)]
pub enum Piece {
    /// The call gives or takes at most this many bytes. At least 1.
    UpTo(u32),
    /// The call finds nothing ready. A source or a sink has none of these.
    NotReady,
    /// The call meets a fault.
    Fail,
}

// The rest of a script for a source or a sink. Contracts see the list of its pieces.
#[derive(Drop)]
pub(crate) struct Script {
    pieces: Vec<Piece>,
    turn: usize,
}

impl Model for Script {
    ghost use Rattle.std.specs.Prelude.{◌≤◌, List, drop, IsTrue, vec_len};
    ghost use Rattle.outside.specs.declared.scripts.Piece.{Piece};
    ghost use Rattle.outside.specs.Scripts.{is_stream_script};

    ghost Value = { List Piece };

    ghost view = { λ s. drop s.turn s.pieces.items };

    ghost invariant = { λ s. (s.turn ≤ vec_len s.pieces) × IsTrue (is_stream_script (drop s.turn s.pieces.items)) };
}

impl Script {
    pub(crate) fn new(pieces: Vec<Piece>) -> Script
        requires { IsTrue (is_stream_script pieces.items) }
        ensures { result ≡ pieces.items }
    {
        Script { pieces, turn: 0 }
    }

    // How many of `count` bytes the next call may move, which uses up a piece. None where it meets
    // a fault.
    pub(crate) fn next_allowed(&mut self, count: usize) -> Option<usize>
        ensures allowed { result ≡ allowed_by self.old count }
        ensures turn { self.new ≡ drop 1 self.old }
        ensures within { IfSome result (λ n. (n ≤ count) × (0 < count → 0 < n)) }
    {
        let piece = match self.pieces.get(self.turn) {
            None => return Some(count),
            Some(piece) => *piece,
        };
        self.turn += 1;
        match piece {
            Piece::UpTo(most) => Some(count.min(most as usize)),
            Piece::NotReady | Piece::Fail => None,
        }
    }
}
