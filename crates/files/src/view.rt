ghost use Rattle.std.specs.Prelude.{◌≡◌, ◌<◌, ◌≤◌, ⊤};
ghost use Rattle.records.specs.Checks.{count, Lawful};

mod calls;
mod sums;
mod tables;

use crate::formats::{Format, SumFormat, TableFormat};
use std::alloc::AllocError;
use std::marker::PhantomData;

/// A file that passed all checks of its format, as a view of the caller's bytes.
#[derive(Drop, Copy)]
pub struct View<'a, F: Format> {
    bytes: &'a [u8],
    variables: usize,
    format: PhantomData<F>,
    ghost ok: { Lawful F.code bytes.now },
    ghost counted: { variables ≡ F.width bytes.now },
    ghost some: { 0 < variables },
    ghost few: { variables ≤ 32 },
    ghost short: { count bytes.now ≤ F.most },
}

/// A table file that passed all checks.
pub type TableView<'a> = View<'a, TableFormat>;

/// A sum file that passed all checks.
pub type SumView<'a> = View<'a, SumFormat>;

// by hand: it cannot be derived for a generic struct with ghost fields
impl<'a, F: Format> Clone for View<'a, F> {
    ghost is_clone = { λ v w. w ≡ v };

    ghost is_infallible = { λ _. ⊤ };

    fn clone(&self) -> Result<View<'a, F>, AllocError> {
        Ok(*self)
    }
}
