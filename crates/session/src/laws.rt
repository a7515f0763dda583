//! Laws of sessions, over their definitions alone. Each is the contract of a function that does nothing.
ghost use Rattle.std.specs.Prelude.{◌≡◌, ◌≢◌, ◌≤◌, ◌⊎◌, ◌++◌, ℕ, List, [], length};
ghost use Rattle.std.specs.Io.KnownBytes.{IsAtEnd};
ghost use mathlib.Core.List.{IsPrefix};
ghost use Rattle.funnel_io.specs.Calls.{bytes_read, found_end};
ghost use Rattle.funnel_io.specs.Lines.{lines, rest_of};
ghost use Rattle.funnel_io.specs.declared.end.End.{End};
ghost use Rattle.funnel_model.specs.declared.call.Call.TheVariants as call;
ghost use Rattle.funnel_model.specs.declared.event.Event.{Event};
ghost use Rattle.funnel_model.specs.declared.expr.Expr.{Expr};
ghost use Rattle.funnel_model.specs.declared.reply.Reply.{Reply};
ghost use Rattle.funnel_model.specs.declared.reply.Reply.TheVariants as reply;
ghost use Rattle.line_proto.specs.Forms.{Item, Told};
ghost use Rattle.line_proto.specs.Services.{AnswersCall, Caller, searched};
ghost use Rattle.line_proto.specs.Texts.{texts};
ghost use Rattle.session.specs.Ends.{Serves, Stand};
ghost use Rattle.session.specs.Laws.{RunsCalls, TakesNone, IsProperFront, EndsByCount, FindIsOver, FindsEnd};
ghost use Rattle.session.specs.Sessions.{Answers, CutsLast};
ghost use Rattle.session.specs.Turns.{AreTurns, StopsReading, Turn, answers_of, bytes_of, line_by_line, reads_of};

use funnel_io::Connection;

/// The calls of a session lead from front to front, one step for each, and their replies are those that were given. A line's call is
/// the one of which it has a form, the search by an expression that keeps what its text seeks, or the tuning by the configuration that
/// its text gives. No other line is a call.
pub fn a_session_is_one_run_of_calls()
    ensures { (caller : Caller) (before after : List Event) (asked : List Item) (replies : List Reply) →
        Answers caller before asked replies after →
        RunsCalls caller before after asked replies }
{}

/// Over a front that is spent every call is refused, as spent or for want of memory, and is in no history; every other line is
/// refused as it is over any front, among them a text that is no query, and a text that gives no configuration, or one whose rows have no room.
pub fn spent_fronts_take_no_call()
    ensures { (caller : Caller) (before after : List Event) (asked : List Item) (replies : List Reply) →
        caller.limits.events ≤ length before → Answers caller before asked replies after →
        TakesNone caller before after asked replies }
{}

/// Where a write failed, the text of the replies is not written to its end.
pub fn failed_writes_cut_the_text()
    ensures { (replies : List Reply) (written : List ℕ) → CutsLast replies written → IsProperFront written (texts replies) }
{}

/// Where a write failed and the last line that was answered is one that no newline ended, nothing is left to be read.
pub fn a_last_line_leaves_nothing()
    ensures { (caller : Caller) (limit : ℕ) (old new : Stand) (served : Serves caller limit old new End.WriteFault) →
        served.session.others ≡ [] → rest_of served.taken ≢ [] → IsAtEnd new.incoming.left }
{}

/// Without a fault a session ends with Done exactly where it took fewer bytes than the limit, but for want of memory.
pub fn sessions_end_by_their_bytes()
    ensures { (caller : Caller) (limit : ℕ) (old new : Stand) (end : End) (served : Serves caller limit old new end) →
        EndsByCount caller limit old new end served }
{}

/// A session that took as many bytes as it may ends at this limit, or by a failed write: no read comes any more, so none fails
/// and none finds the end.
pub fn sessions_end_at_their_limit()
    ensures { (caller : Caller) (limit : ℕ) (old new : Stand) (end : End) (served : Serves caller limit old new end) →
        1 ≤ limit → limit ≤ length served.taken → (end ≡ End.ByteLimit limit) ⊎ (end ≡ End.WriteFault) }
{}

/// The last read of a session that is done found the end of the input.
pub fn sessions_that_are_done_found_the_end<C: Connection>()
    ensures { (limit : ℕ) (end : End) (before after : C) (stops : StopsReading line_by_line C.read_gives C.write_gives limit (end ≡ End.Done) before after) →
        end ≡ End.Done → FindsEnd (stops.goes.last ++ reads_of stops.goes.turns) }
{}

/// What the turns of a session write begins the texts of their replies.
pub fn turns_write_their_replies()
    ensures { (turns : List (Turn Reply)) → AreTurns line_by_line turns → IsPrefix (bytes_of turns) (texts (answers_of turns)) }
{}

/// No reply comes before its line: with each turn as many lines have ended as there are replies, by a newline or by the end of the
/// input that the last read found.
pub fn replies_come_after_their_lines()
    ensures { (turns : List (Turn Reply)) → AreTurns line_by_line turns →
        length (answers_of turns) ≤ length (lines (bytes_read (reads_of turns)) (found_end (reads_of turns))) }
{}

/// A find that found no memory is over: its pass has no token, and made no other call. So is a search by an expression, whose find is that
/// of the empty query.
pub fn finds_without_memory_are_over()
    ensures find { (caller : Caller) (before after : List Event) (query : List ℕ) →
        AnswersCall caller before after (call.Find query) reply.Memory →
        FindIsOver caller.pass before after query }
    ensures search { (caller : Caller) (before after : List Event) (told : Told) (expr : Expr) →
        AnswersCall caller before after (searched told expr) reply.Memory →
        FindIsOver caller.pass before after [] }
{}
