//! The laws of the definitions.

ghost use Rattle.std.specs.Prelude.{◌≡◌, ◌<◌, ◌≤◌, ℕ, List, [], Ok, Err};
ghost use Rattle.funnel_model.specs.Configuration.{IsBetween, with_statistics};
ghost use Rattle.funnel_model.specs.Sizes.{columns_of_pool, words_of_slice};
ghost use Rattle.funnel_model.specs.declared.config.Config.{Config};
ghost use Rattle.funnel_stats.specs.FaultNumbers.{number_of_fault};
ghost use Rattle.funnel_stats.specs.Laws.{EntriesAreInByteOrder};
ghost use Rattle.funnel_stats.specs.Tunings.{Faulty, Gives, Wide, tuned, tuning};
ghost use Rattle.funnel_stats.specs.declared.fault.ConfigFault.{ConfigFault};
ghost use Rattle.funnel_stats.specs.declared.key.TheConstants.{ONE_IN, SNR, DOCUMENTS, TAIL, MAX_ROWS, PRIVATE};

/// Whatever bytes are read, the entries of their object stand in byte order of their names, each name once, and so do
/// its listed words. So the first unknown key, word or count that is a fault is the first in byte order.
pub fn entries_are_in_byte_order()
    ensures { EntriesAreInByteOrder }
{}

/// A tuning changes statistics alone, so the columns stay as they are. What a text gives doesn't hang on the statistics that there
/// were, so one tuning after another gives what the last one gives.
pub fn tunings_change_statistics_alone()
    ensures kept { (opening config : Config) (text : List ℕ) → tuning opening text ≡ Ok config → config ≡ with_statistics opening config }
    ensures columns { (opening config : Config) (text : List ℕ) → tuning opening text ≡ Ok config →
        columns_of_pool config ≡ columns_of_pool opening }
    ensures afresh { (opening base : Config) (text : List ℕ) → base ≡ with_statistics opening base → tuning base text ≡ tuning opening text }
{}

/// The empty text gives every statistic its default.
pub fn the_empty_text_gives_defaults()
    ensures { (opening : Config) → tuning opening [] ≡ Ok (record opening {
      one_in = ONE_IN;
      snr = SNR;
      documents = DOCUMENTS;
      tail = TAIL;
      max_rows = MAX_ROWS;
      private = PRIVATE;
      words = [];
    }) }
{}

/// What comes of a text is the configuration that it gives, where a slice needs no more words than the opening gave it; how many
/// it needs, where these are more; or the number of its fault, which is from 3 to 7. No other configuration comes of it.
pub fn texts_are_tuned_by_what_they_give()
    ensures gives { (opening config : Config) (text : List ℕ) → tuning opening text ≡ Ok config →
        words_of_slice config ≤ words_of_slice opening → tuned opening text ≡ Gives config }
    ensures wide { (opening config : Config) (text : List ℕ) → tuning opening text ≡ Ok config →
        words_of_slice opening < words_of_slice config → tuned opening text ≡ Wide (words_of_slice config) (words_of_slice opening) }
    ensures faulty { (opening : Config) (text : List ℕ) (fault : ConfigFault) → tuning opening text ≡ Err fault →
        tuned opening text ≡ Faulty (number_of_fault fault) }
    ensures numbers { (opening : Config) (text : List ℕ) (fault : ConfigFault) → tuning opening text ≡ Err fault →
        IsBetween 3 7 (number_of_fault fault) }
    ensures given { (opening config : Config) (text : List ℕ) → tuned opening text ≡ Gives config →
        (tuning opening text ≡ Ok config) × (words_of_slice config ≤ words_of_slice opening) }
{}
