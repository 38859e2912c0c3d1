/// Where the work on one file begins and ends: a caller may wait here, or count.
/// Neither call changes what is read or written.
pub trait Gate: Sync {
    /// The work on the file numbered `k`, from 0, begins.
    fn enter(&self, k: u32);

    /// The work on the file numbered `k`, from 0, has ended.
    fn leave(&self, k: u32);
}

/// A gate that does nothing.
#[derive(Clone, Copy, Debug)]
pub struct OpenGate;

impl Gate for OpenGate {
    fn enter(&self, k: u32) {
        let _ = k;
    }

    fn leave(&self, k: u32) {
        let _ = k;
    }
}
