ghost use Rattle.records.specs.Kinds.{Decodes, ByKind};

use crate::refusal::Cause;

/// What a record says, by its first byte: the first two kinds make a table file, the others a sum file.
#[derive(Drop, Clone, Copy)]
pub enum Kind {
    Variable = 1,
    Table = 2,
    Objective = 3,
    Sum = 4,
}

/// A first byte that names no kind.
#[derive(Drop, Clone, Copy)]
pub struct UnknownKind(pub u8);

impl TryFrom<u8> for Kind {
    type Error = UnknownKind;

    ghost try_from_gives = { Decodes };

    fn try_from(byte: u8) -> Result<Self, UnknownKind> {
        match byte {
            1 => Ok(Kind::Variable),
            2 => Ok(Kind::Table),
            3 => Ok(Kind::Objective),
            4 => Ok(Kind::Sum),
            _ => Err(UnknownKind(byte)),
        }
    }
}

impl From<UnknownKind> for Cause {
    ghost from_gives = { ByKind };

    fn from(_unknown: UnknownKind) -> Cause {
        Cause::Kind
    }
}
