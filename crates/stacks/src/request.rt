use crate::kinds::Stack;
use runs::calls::Call;

/// A list of calls to be made on a stack of layers with this allowance.
#[derive(Drop)]
pub struct Request {
    pub stack: Stack,
    pub allowance: u64,
    pub calls: Vec<Call>,
}
