//! Recomputing: a layer that holds nodes as depths of a path, and comes back to them by redoing the path.
#![tactic(auto)]

pub mod route;

use layers::Layer;
use route::Route;

/// Keeps the path to the current node, and comes back to a held node by redoing it from a checkpoint.
pub type Recomputing<S> = Layer<S, Route>;
