//! Laws of requests over HTTP, over their definitions alone. Each is the contract of a function that does nothing.
ghost use Rattle.std.specs.Prelude.{◌≡◌, ℕ, List};
ghost use mathlib.Core.List.{IsPrefix};
ghost use Rattle.funnel_io.specs.Calls.{bytes_read};
ghost use Rattle.funnel_model.specs.declared.event.Event.{Event};
ghost use Rattle.line_proto.specs.Services.{Caller};
ghost use Rattle.http_front.specs.Entries.{AreRequests, BeginsWith, Entry};
ghost use Rattle.http_front.specs.Laws.{RunsCalls};
ghost use Rattle.http_front.specs.Sessions.{Answers, Exchange, entries_of, responses};
ghost use Rattle.http_front.specs.Turns.{request_by_request};
ghost use Rattle.session.specs.Turns.{AreTurns, Turn, answers_of, bytes_of, reads_of};

/// The calls of a connection lead from front to front, one step for each.
pub fn a_connection_is_one_run_of_calls()
    ensures { (caller : Caller) (before after : List Event) (exchanges : List Exchange) →
        Answers caller before exchanges after → RunsCalls caller before after exchanges }
{}

/// Bytes have one list of requests.
pub fn bytes_have_one_list_of_requests()
    ensures { (bytes : List ℕ) (entries others : List Entry) → AreRequests bytes entries → AreRequests bytes others → entries ≡ others }
{}

/// No response comes before its request: with each turn the bytes that were read begin with the requests that are answered.
pub fn responses_come_after_their_requests()
    ensures { (turns : List (Turn Exchange)) → AreTurns request_by_request turns →
        (rest : List ℕ) × BeginsWith (bytes_read (reads_of turns)) (entries_of (answers_of turns)) rest }
{}

/// What the turns on a connection write begins the responses of their exchanges.
pub fn turns_write_their_responses()
    ensures { (turns : List (Turn Exchange)) → AreTurns request_by_request turns → IsPrefix (bytes_of turns) (responses (answers_of turns)) }
{}
