ghost use Rattle.std.specs.Prelude.{◌≡◌, ℕ, ◌<◌, ◌↔◌, length};
ghost use Rattle.std.specs.declared.option.Option.TheVariants.{Some};
ghost use Rattle.funnel_model.specs.declared.bit_list.Bit.{Bit};
ghost use Rattle.funnel_model.specs.RowWords.{IsSetIn};

use crate::rows::Rows;
use std::marker::Model;

/// Plain words as rows, with a count of the words read. Contracts see the words and the count.
#[derive(Debug, Drop)]
pub struct Image<'a> {
    words: &'a [u64],
    reads: u64,
}

impl<'a> Model for Image<'a> {
    ghost use Rattle.row_read.specs.Images.{ImageState};

    ghost Value = { ImageState };

    ghost view = { λ image. record { words = image.words.now; reads = image.reads } };
}

impl Image<'_> {
    /// Rows over these words, of which none was read.
    pub fn new(words: &[u64]) -> Image<'_>
        ensures words { result.words ≡ words.now }
        ensures reads { result.reads ≡ 0 }
        ensures told { ⟦<Image<'static> as Rows>⟧.told result ≡ Some words.now }
        ensures least { (bit : Bit) → ⟦<Image<'static> as Rows>⟧.least result bit ↔ IsSetIn words.now bit }
        ensures seen { (bit : Bit) → ⟦<Image<'static> as Rows>⟧.seen result bit ↔ IsSetIn words.now bit }
        ensures reach { (word : ℕ) → ⟦<Image<'static> as Rows>⟧.reach result word ↔ (word < length words.now) }
    {
        Image { words, reads: 0 }
    }
}

impl<'a> Rows for Image<'a> {
    ghost use Rattle.std.specs.Prelude.{⊤};

    ghost Kept = { ⊤ };

    ghost reach = { λ image word. word < length image.words };

    ghost least = { λ image bit. IsSetIn image.words bit };

    ghost seen = { λ image bit. IsSetIn image.words bit };

    ghost told = { λ image. Some image.words };

    ghost kept = { λ _. tt };

    ghost reads = { λ image. image.reads };

    ghost is_read = { λ _ _ _ _. ⊤ };

    fn read(&mut self, word: u32) -> u64 {
        self.reads = self.reads.saturating_add(1);
        self.words[word as usize]
    }

    fn reads(&self) -> u64 {
        self.reads
    }
}
