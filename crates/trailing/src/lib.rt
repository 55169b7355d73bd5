//! A layer that keeps the old values of the words that change, and goes back to a held node by putting them back.
#![tactic(auto)]

use changes::Changes;
use layers::Layer;

pub mod changes;

/// A layer over a loadable space that holds its nodes by a trail of changes.
pub type Trailing<S> = Layer<S, Changes>;
