//! How far a frame is with its request.

/// Whether a frame is between requests, has asked, or has ended.
#[derive(Clone, Copy)]
pub enum Phase {
    /// Between requests.
    Running,
    /// It has asked and is not answered yet.
    Wanting,
    /// It has ended.
    Over,
}
