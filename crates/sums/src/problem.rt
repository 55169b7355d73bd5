//! The problem of a sum file.
ghost use Rattle.files.specs.Meaning.{bytes_of};
ghost use Rattle.sum_networks.specs.Files.{Masks};

use files::SumView;

pub mod calls;

/// A sum file as a problem, with the set of variables of each sum.
#[derive(Drop)]
pub struct Sums<'a> {
    view: SumView<'a>,
    // a plain array: a sum that is not there touches nothing, so that no length is needed
    touched: [u32; 64],
    ghost ok: { Masks (bytes_of view) touched },
}
