//! Documents of one word, and room for their bits.
ghost use Rattle.std.specs.Prelude.{◌≡◌, [], ◌∷◌};
ghost use Rattle.funnel_model.specs.Words.{words};

use crate::setting::Setting;
use document_store::Doc;
use funnel_model::{Memory, Text, WordSet};
use row_layout::Bits;
use slice_rule::PoolName;
use std::alloc::Global;
use std::marker::{Model, PhantomData};

/// A document with room for its bits.
#[derive(Drop)]
pub(crate) struct Draft<N: PoolName> {
    pub doc: Doc,
    pub bits: Bits,
    pub of: PhantomData<N>,
}

impl<N: PoolName> Model for Draft<N> {
    ghost use Rattle.commit_desk_tests.specs.Tested.{IsDraft};

    ghost Value = { Unit {0} };

    ghost view = { λ _. tt };

    ghost invariant = { λ d. IsDraft d.doc.words d.bits };
}

/// A document whose text is one word.
fn document(alloc: Global, id: u64, text: &str) -> Result<Doc, Memory>
    requires { words text.now ≡ text.now ∷ [] }
{
    let set = WordSet::from_sorted(alloc, &[text.as_bytes()])?;
    Ok(Doc::new(id, Text::new(String::from_str(alloc, text)?), set))
}

impl<N: PoolName> Setting<N> {
    /// A document with this number.
    pub fn draft(&self, id: u64) -> Result<Draft<N>, Memory> {
        let doc = document(self.alloc, id, "cat")?;
        self.with_bits(doc)
    }

    /// A document with this number and another text.
    pub fn draft_put(&self, id: u64) -> Result<Draft<N>, Memory> {
        let doc = document(self.alloc, id, "dog")?;
        self.with_bits(doc)
    }

    fn with_bits(&self, doc: Doc) -> Result<Draft<N>, Memory> {
        let bits = Bits::for_words(self.alloc, doc.words())?;
        let of = PhantomData;
        Ok(Draft { doc, bits, of })
    }
}
