ghost use Rattle.std.specs.Prelude.{◌≡◌, ◌<◌, ◌≤◌, ◌⊎◌, ℕ, List, [], Some, None, Ok, Err, codes};
ghost use Rattle.funnel_model.specs.declared.call.Call.TheVariants.{Add, Put, Delete, Find, Get, Place, Journal, Stats, Recycle, Tune};
ghost use Rattle.funnel_model.specs.declared.config.Config.{Config};
ghost use Rattle.funnel_model.specs.declared.event.Event.{Event};
ghost use Rattle.funnel_model.specs.declared.reply.Reply.{Reply};
ghost use Rattle.funnel_model.specs.declared.reply.Reply.TheVariants as reply;
ghost use Rattle.funnel_model.specs.Sizes.{words_of_slice};
ghost use Rattle.funnel_stats.specs.declared.fault.ConfigFault.{ConfigFault};
ghost use Rattle.funnel_stats.specs.FaultNumbers.{number_of_fault};
ghost use Rattle.funnel_stats.specs.Tunings.{tuning};
ghost use Rattle.line_proto.specs.Forms.{Calls, Searches, Tunes, Ids, Amount, Last, First, ByQuery, ByWords, form_of};
ghost use Rattle.line_proto.specs.Grammar.{IsReadByForms};
ghost use Rattle.line_proto.specs.Services.{AnswersAsked, AnswersCall, Caller};

/// What a line is read as is that of which it has a form by the protocol's grammar. So no line has forms of two calls, or of two of a
/// call, a search and a tuning.
pub fn lines_are_read_by_the_grammar()
    ensures { (line : List ℕ) → IsReadByForms line }
{}

/// Lines of the forms of calls.
pub fn example_calls()
    ensures add { form_of (codes "add 007 a b\r") ≡ Some (Calls (Add 7 (codes "a b"))) }
    ensures no_text { form_of (codes "add 7") ≡ Some (Calls (Add 7 [])) }
    ensures put { form_of (codes "put 7 b") ≡ Some (Calls (Put 7 (codes "b"))) }
    ensures delete { form_of (codes "del 18446744073709551615") ≡ Some (Calls (Delete 18446744073709551615)) }
    ensures get { form_of (codes "get 7") ≡ Some (Calls (Get 7)) }
    ensures find { form_of (codes "find") ≡ Some (Calls (Find [])) }
    ensures place { form_of (codes "place") ≡ Some (Calls Place) }
    ensures journal { form_of (codes "journal 0") ≡ Some (Calls (Journal 0)) }
    ensures stats { form_of (codes "stats") ≡ Some (Calls Stats) }
    ensures recycle { form_of (codes "recycle\r") ≡ Some (Calls Recycle) }
{}

/// Lines of the forms of searches and tunings. A space behind a word or a number begins a query, also one without text.
pub fn example_texts()
    ensures query { form_of (codes "query -a | b") ≡ Some (Searches Ids (ByQuery (codes "-a | b"))) }
    ensures no_query_text { form_of (codes "query ") ≡ Some (Searches Ids (ByQuery [])) }
    ensures query_alone { form_of (codes "query") ≡ None }
    ensures count { form_of (codes "count a") ≡ Some (Searches Amount (ByQuery (codes "a"))) }
    ensures count_alone { form_of (codes "count") ≡ Some (Searches Amount (ByWords [])) }
    ensures no_count_text { form_of (codes "count ") ≡ Some (Searches Amount (ByQuery [])) }
    ensures newest { form_of (codes "newest 5 -x") ≡ Some (Searches (Last 5) (ByQuery (codes "-x"))) }
    ensures newest_alone { form_of (codes "newest 5") ≡ Some (Searches (Last 5) (ByWords [])) }
    ensures oldest { form_of (codes "oldest 1 b") ≡ Some (Searches (First 1) (ByQuery (codes "b"))) }
    ensures tune { form_of (codes "tune []\r") ≡ Some (Tunes (codes "[]")) }
    ensures no_tune_text { form_of (codes "tune ") ≡ Some (Tunes []) }
    ensures tune_alone { form_of (codes "tune") ≡ None }
{}

/// Lines of no form.
pub fn example_lines_of_no_form()
    ensures empty { form_of [] ≡ None }
    ensures other_word { form_of (codes "delete 5") ≡ None }
    ensures more_text { form_of (codes "place 1") ≡ None }
    ensures no_amount { form_of (codes "newest a") ≡ None }
    ensures no_number { form_of (codes "add 18446744073709551616 a") ≡ None }
{}

/// The text of a tuning is answered by what it is, over every front. Where it has a fault, or gives a configuration by which a slice needs
/// more words than the opening one gives it, that is told, or want of memory, and there is no step. Any other configuration is a call.
pub fn tunings_are_answered_by_their_texts()
    ensures faulty { (caller : Caller) (before after : List Event) (text : List ℕ) (given : Reply) (fault : ConfigFault) →
        tuning caller.opening text ≡ Err fault → AnswersAsked caller before after (Tunes text) given →
        (before ≡ after) × ((given ≡ reply.Tuning (number_of_fault fault)) ⊎ (given ≡ reply.Memory)) }
    ensures wide { (caller : Caller) (before after : List Event) (text : List ℕ) (given : Reply) (config : Config) →
        tuning caller.opening text ≡ Ok config → words_of_slice caller.opening < words_of_slice config →
        AnswersAsked caller before after (Tunes text) given →
        (before ≡ after) × ((given ≡ reply.Wide (words_of_slice config) (words_of_slice caller.opening)) ⊎ (given ≡ reply.Memory)) }
    ensures fits { (caller : Caller) (before after : List Event) (text : List ℕ) (given : Reply) (config : Config) →
        tuning caller.opening text ≡ Ok config → words_of_slice config ≤ words_of_slice caller.opening →
        AnswersAsked caller before after (Tunes text) given → AnswersCall caller before after (Tune config) given }
{}
