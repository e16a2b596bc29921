//! The letter a, b or c, which names the case of a blocking pair.

use std::fmt;

/// The case in which a pair blocks a matching.
#[derive(Clone, Copy, Debug, PartialEq, Eq)]
pub enum Letter {
    /// The project and its lecturer have room.
    A,
    /// The project has room, and its full lecturer already has this student or a lower-ranked one.
    B,
    /// The project is full and has a lower-ranked student.
    C,
}

impl fmt::Display for Letter {
    ghost use Rattle.std.specs.Prelude.{Some};
    ghost use Rattle.spa_model.specs.Spa.{text_of};

    ghost output = { λ x. Some (text_of x) };

    fn fmt<W: fmt::Write>(&self, f: &mut fmt::Formatter<W>) -> fmt::Result {
        f.write_str(match self {
            Letter::A => "a",
            Letter::B => "b",
            Letter::C => "c",
        })
    }
}
