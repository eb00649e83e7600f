/// A read or a write failed. It moved no byte.
#[derive(Debug, Drop)]
pub struct Failed;
