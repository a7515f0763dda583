ghost use Rattle.std.specs.Prelude.{◌≡◌, ℕ, ◌+◌, ◌-◌, ◌^◌, ◌↔◌, ◌⊎◌, min, IsBitSet, List, IfSome, slice_index};
ghost use Rattle.std.specs.declared.option.Option.{Option};
ghost use Rattle.funnel_model.specs.declared.bit_list.Bit.{Bit};
ghost use Rattle.row_read.specs.Readable.{StaysReadable};

/// Row words that can be read one by one.
pub trait Rows {
    // What no read changes, beside what the other members say.
    ghost Kept: { Type 0 };

    // The words that may be read.
    ghost reach: { Self → ℕ → Type 0 };

    // The bits that every read of their word has.
    ghost least: { Self → Bit → Type 0 };

    // The bits that were set in a read of their word.
    ghost seen: { Self → Bit → Type 0 };

    // The words, where they are known and stay as they are.
    ghost told: { Self → Option (List ℕ) };

    ghost kept: { Self → Kept };

    // How many words were read, up to the last value of the counter.
    ghost reads: { Self → ℕ };

    // What else the words tell of a read: that one read of this word, which gave this value, leads from one state to the next.
    ghost is_read: { Self → ℕ → ℕ → Self → Type 0 };

    /// Reads a word.
    fn read(&mut self, word: u32) -> u64
        requires reach { reach self.old word }
        ensures once { is_read self.old word result self.new }
        ensures told { IfSome (told self.old) (λ words. result ≡ slice_index words word) }
        ensures least { (bit : ℕ) → least self.old (record { word = word; bit = bit }) → IsBitSet result bit }
        ensures seen { (bit : Bit) → seen self.new bit ↔ (seen self.old bit ⊎ ((bit.word ≡ word) × IsBitSet result bit.bit)) }
        ensures stays { StaysReadable reach least seen told kept self.old self.new }
        ensures reads { reads self.new ≡ min (reads self.old + 1) (2 ^ 64 - 1) };

    /// How many words were read. The count stays at its last value.
    fn reads(&self) -> u64
        ensures { result ≡ reads self.now };
}
