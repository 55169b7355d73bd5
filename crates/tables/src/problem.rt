//! A table file as a problem.
use files::TableView;

pub mod calls;

/// The problem of a table file, read in place.
#[derive(Drop, Clone, Copy)]
pub struct Tables<'a> {
    view: TableView<'a>,
}
