//! The script of a link in memory.

ghost use Rattle.std.specs.Prelude.{◌≡◌, IsTrue, drop};
ghost use Rattle.links.specs.Script.{found_by, is_link_script, IsWithin};

use outside::Piece;
use std::marker::Model;

// What a call of a link in memory finds.
#[derive(Clone, Copy, Debug, PartialEq, Eq)]
pub(crate) enum Finds {
    // So many bytes may move.
    Room(usize),
    NotReady,
    Fault,
}

// The rest of a script. Contracts see the list of its pieces.
#[derive(Drop)]
pub(crate) struct Script {
    pieces: Vec<Piece>,
    turn: usize,
}

impl Model for Script {
    ghost use Rattle.std.specs.Prelude.{◌≤◌, List, drop, IsTrue, vec_len};
    ghost use Rattle.outside.specs.declared.scripts.Piece.{Piece};
    ghost use Rattle.links.specs.Script.{is_link_script};

    ghost Value = { List Piece };

    ghost view = { λ s. drop s.turn s.pieces.items };

    ghost invariant = { λ s. (s.turn ≤ vec_len s.pieces) × IsTrue (is_link_script (drop s.turn s.pieces.items)) };
}

impl Script {
    pub(crate) fn new(pieces: Vec<Piece>) -> Script
        requires { IsTrue (is_link_script pieces.items) }
        ensures { result ≡ pieces.items }
    {
        Script { pieces, turn: 0 }
    }

    // What the next call finds that could move `count` bytes, which uses up a piece.
    pub(crate) fn next_finds(&mut self, count: usize) -> Finds
        ensures finds { result ≡ found_by self.old count }
        ensures turn { self.new ≡ drop 1 self.old }
        ensures within { IsWithin count result }
    {
        let piece = match self.pieces.get(self.turn) {
            None => return Finds::Room(count),
            Some(piece) => *piece,
        };
        self.turn += 1;
        match piece {
            Piece::UpTo(most) => Finds::Room(count.min(most as usize)),
            Piece::NotReady => Finds::NotReady,
            Piece::Fail => Finds::Fault,
        }
    }
}
