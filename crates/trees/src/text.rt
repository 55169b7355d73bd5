ghost use Rattle.std.specs.Prelude.{Some};
ghost use Rattle.trees.specs.Texts.{status_text};

use crate::Status;
use std::fmt;

impl fmt::Display for Status {
    ghost output = { λ s. Some (status_text s) };

    fn fmt<W: fmt::Write>(&self, f: &mut fmt::Formatter<W>) -> fmt::Result {
        match self {
            Status::Failed => f.write_str("failed"),
            Status::Solved => f.write_str("solved"),
            Status::Choice((variable, value)) => write!(f, "choice {variable} {value}"),
        }
    }
}
