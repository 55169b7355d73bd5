//! A layer that holds whole copies of nodes, and puts a copy back word by word.
#![tactic(auto)]

use copies::Copies;
use layers::Layer;

pub mod copies;

/// A layer over a loadable space that holds its nodes as copies.
pub type Copying<S> = Layer<S, Copies>;
