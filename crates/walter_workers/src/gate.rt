//! What a worker asks before each turn of a client.

/// What a worker asks before each turn of a client, while it holds no lock. It may wait.
pub trait Gate: Sync {
    /// The client is about to have its turn. Its turns are counted from 0.
    fn before(&self, client: u32, call: u64);
}

/// Keeps nobody waiting.
pub struct OpenGate;

impl Gate for OpenGate {
    fn before(&self, _client: u32, _call: u64) {}
}
