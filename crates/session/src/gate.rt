/// Told by a prover when it posts a piece of work and when a piece is about to be lifted, by the piece's number.
pub trait Gate: Sync {
    fn posted(&self, number: u32);

    fn lifting(&self, number: u32);
}

/// A gate that does nothing.
#[derive(Drop)]
pub struct NoGate;

impl Gate for NoGate {
    fn posted(&self, _number: u32) {}

    fn lifting(&self, _number: u32) {}
}
