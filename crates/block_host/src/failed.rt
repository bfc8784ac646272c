/// A call failed, and the object's count of faults rose in it.
#[derive(Clone, Copy, Debug, PartialEq, Eq)]
pub struct Failed;
