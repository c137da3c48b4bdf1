//! Texts that lie one behind another in one block of bytes, which they share.

ghost use Rattle.std.specs.Prelude.{◌≡◌, IfOk};
ghost use Rattle.std.specs.Rc.{rc_value};
ghost use Rattle.dom_nodes.specs.Blocks.{LiesAt};

use crate::fault::OutOfMemory;
use std::alloc::Global;
use std::marker::Model;
use std::rc::Rc;
use std::str::from_utf8_unchecked;

/// A block of bytes that several texts share by a reference count. In a contract it is the list of
/// its bytes.
#[derive(Drop)]
pub struct TextBlock {
    bytes: Rc<Vec<u8>>,
}

impl Model for TextBlock {
    ghost use Rattle.std.specs.Prelude.{List, ℕ};
    ghost use Rattle.std.specs.Rc.{rc_value};

    ghost Value = { List ℕ };

    ghost view = { λ block. (rc_value block.bytes).items };
}

impl TextBlock {
    /// Returns a block with these bytes, or `OutOfMemory`.
    pub fn new(alloc: Global, bytes: Vec<u8>) -> Result<TextBlock, OutOfMemory>
        ensures { IfOk result (λ block. block ≡ bytes.items) }
    {
        let bytes = Rc::new(alloc, bytes)?;
        Ok(TextBlock { bytes })
    }

    /// Returns another handle to the same block. It fails with `OutOfMemory` when the reference
    /// count is full.
    fn shared(&self) -> Result<TextBlock, OutOfMemory>
        ensures { IfOk result (λ block. block ≡ self.now) }
    {
        let bytes = Rc::clone(&self.bytes)?;
        Ok(TextBlock { bytes })
    }

    #[inline(always)]
    fn as_slice(&self) -> &[u8]
        ensures { result.now ≡ self.now }
    {
        self.bytes.as_slice()
    }
}

/// A text inside a block. In a contract it is the list of its bytes.
#[derive(Drop)]
pub(crate) struct TextPart {
    block: TextBlock,
    start: usize,
    count: usize,
}

impl Model for TextPart {
    ghost use Rattle.std.specs.Prelude.{◌+◌, ◌≤◌, List, ℕ, drop, take, length, IsUtf8};

    ghost Value = { List ℕ };

    ghost view = { λ part. take part.count (drop part.start part.block) };

    ghost invariant = { λ part. (part.start + part.count ≤ length part.block)
        × IsUtf8 (take part.count (drop part.start part.block)) };
}

impl TextPart {
    /// Returns the text that lies in the block from index `start` on. It shares the block.
    pub(crate) fn new(block: &TextBlock, start: usize, text: &str) -> Result<TextPart, OutOfMemory>
        requires { LiesAt text.now start block.now }
        ensures { IfOk result (λ part. part ≡ text.now) }
    {
        let block = block.shared()?;
        Ok(TextPart {
            block,
            start,
            count: text.len(),
        })
    }

    /// Returns another handle to the same text in the same block.
    pub(crate) fn shared(&self) -> Result<TextPart, OutOfMemory>
        ensures { IfOk result (λ part. part ≡ self.now) }
    {
        let block = self.block.shared()?;
        Ok(TextPart {
            block,
            start: self.start,
            count: self.count,
        })
    }

    #[inline(always)]
    pub(crate) fn as_str(&self) -> &str
        ensures { result.now ≡ self.now }
    {
        let bytes = self.block.as_slice();
        unsafe { from_utf8_unchecked(&bytes[self.start..self.start + self.count]) }
    }
}
