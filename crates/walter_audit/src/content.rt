//! What a site's journal holds.
use walter_base::Format;

/// What a site's journal holds: the format that its header names, and its bodies.
#[derive(Debug, Drop)]
pub struct Content {
    pub header: Format,
    pub bodies: Vec<Vec<u8>>,
}
