//! What a text is to mean.

/// What a text is to mean.
#[derive(Clone, Copy)]
pub enum Meant {
    /// A program.
    Program,
    /// A trace.
    Trace,
}

impl Meant {
    /// The other of the two.
    pub(crate) fn other(self) -> Meant {
        match self {
            Meant::Program => Meant::Trace,
            Meant::Trace => Meant::Program,
        }
    }
}
