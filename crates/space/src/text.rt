ghost use Rattle.std.specs.Prelude.{Some};
ghost use Rattle.space.specs.Texts.{refusal_text};

use crate::refusal::Refusal;
use std::fmt;

impl fmt::Display for Refusal {
    ghost output = { λ e. Some (refusal_text e) };

    fn fmt<W: fmt::Write>(&self, f: &mut fmt::Formatter<W>) -> fmt::Result {
        let number = self.number();
        match self.layer() {
            Some(layer) => write!(f, "refused {number} layer {layer}"),
            None => write!(f, "refused {number}"),
        }
    }
}
