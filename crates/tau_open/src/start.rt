//! What a stream starts with.
use tau_base::Listed;
use tau_block::Content;

/// What a stream starts with.
#[derive(Debug, Drop)]
pub struct StreamStart {
    /// Its header and a closed gate.
    pub head: [u8; 17],
    /// The content that was read of its disk.
    pub content: Content,
    /// The records that are put after the content, as one block.
    pub body: Listed<u8>,
}
