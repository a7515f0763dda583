ghost use Rattle.std.specs.Prelude.{◌≡◌, length};

use crate::block::Block;
use std::marker::Model;

/// What keeps documents out of each slice, by the slices' numbers. Contracts see it as a list.
#[derive(Debug, Drop)]
pub struct Blocked {
    blocks: Vec<Block>,
}

impl Model for Blocked {
    ghost use Rattle.std.specs.Prelude.{List};
    ghost use Rattle.funnel_model.specs.declared.block.Block.{Block};

    ghost Value = { List Block };

    ghost view = { λ l. l.blocks.items };
}

impl Blocked {
    pub fn new(blocks: Vec<Block>) -> Self
        ensures { result ≡ blocks.items }
    {
        Blocked { blocks }
    }

    pub fn len(&self) -> usize
        ensures { result ≡ length self.now }
    {
        self.blocks.len()
    }

    pub fn as_slice(&self) -> &[Block]
        ensures { result.now ≡ self.now }
    {
        self.blocks.as_slice()
    }

    /// The blocks that it was made of.
    pub fn into_inner(self) -> Vec<Block>
        ensures { result.items ≡ self }
    {
        self.blocks
    }
}
