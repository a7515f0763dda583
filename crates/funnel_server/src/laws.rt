//! Laws of workers, over their definitions alone. Each is the contract of a function that does nothing.
ghost use Rattle.std.specs.Prelude.{◌≡◌, ◌<◌, ◌++◌, ℕ, true, false, List, [], Some, IfSome, map, take};
ghost use Rattle.std.specs.List.{All};
ghost use Rattle.line_proto.specs.Services.{Caller};
ghost use Rattle.funnel_model.specs.declared.event.Event.{Event};
ghost use Rattle.funnel_model.specs.declared.reply.Reply.{Reply};
ghost use Rattle.funnel_model.specs.History.{IsFrontOf};
ghost use Rattle.load_gen.specs.Jobs.{queries_of};
ghost use Rattle.funnel_server.specs.Gates.{Sides};
ghost use Rattle.funnel_server.specs.GateTurns.{TakesTurn, WorksInTurns, none_by};
ghost use Rattle.funnel_server.specs.Laws.{AsksShare, CountsOut, SessionEndsWell, GoesOnByCalls, HasCause, HasFewBytes, VisitHasNoFault};
ghost use Rattle.funnel_server.specs.Loads.{AreAsked, ComesToQueries, Course};
ghost use Rattle.funnel_server.specs.Workers.{GivesNoMore, HasServedVisits, IsVisit, Visit, WorkerState, WorkerWithGate, Works};
ghost use Rattle.funnel_server.specs.Workers.{served_by, sides_after, sides_before};

use funnel_io::{End, Gate, Next};

/// The calls of a worker's pass are those that it had made before and then those of its sessions, in order; and the front of
/// the pass goes on from where it was, over all that its sessions saw.
pub fn a_workers_calls_are_those_of_its_sessions()
    ensures { (before after : WorkerState) (visits : List Visit) → HasServedVisits before after visits →
        GoesOnByCalls before.caller before.front after.front visits }
{}

/// Each end that a gate keeps has its cause in the counts and the bytes that the gate keeps with it.
pub fn kept_ends_have_their_cause()
    ensures { (caller : Caller) (visit : Visit) → IsVisit caller visit → HasCause visit.http (sides_before visit) (served_by visit) }
{}

/// A worker whose gate didn't fail served the first of the connections that waited: as many as it may, or all. So where it may
/// serve more, its gate is closed, and none waits.
pub fn workers_without_a_fault_serve_all()
    ensures first { (before after : WorkerState) (works : Works before after) (waiting : List Sides) →
        after.fault ≡ false → before.gate.waiting ≡ Some waiting → map sides_before works.visits ≡ take before.left waiting }
    ensures none { (before after : WorkerState) (works : Works before after) →
        after.fault ≡ false → 0 < after.left → GivesNoMore after.gate }
{}

/// Where each connection has fewer bytes than a session may take, and no read and no write failed, each session ends with Done
/// or for want of memory; and with Done alone where the worker found memory for each.
pub fn sessions_without_a_fault_end_well()
    ensures ends { (before after : WorkerState) (works : Works before after) (waiting : List Sides) →
        before.gate.waiting ≡ Some waiting → All HasFewBytes waiting → All VisitHasNoFault works.visits → All SessionEndsWell works.visits }
    ensures done { (before after : WorkerState) (works : Works before after) →
        after.memory ≡ false → All SessionEndsWell works.visits → All (λ visit. visit.end ≡ End.Done) works.visits }
{}

/// A turn whose session found no memory leaves its connection as it came.
pub fn turns_without_memory_leave_the_connection<G: Gate>()
    ensures { (before after : G) (visit : Visit) → TakesTurn G.Gate G.Conn.Source.own G.Conn.Sink.own before visit after →
        visit.end ≡ End.Memory → sides_after visit ≡ sides_before visit }
{}

/// A worker gives each connection back that its gate handed out, before it asks for the next. So as many are out as were before it
/// began, by each number that the gate's calls tell of it.
pub fn workers_give_back_what_they_are_handed<G: Gate>()
    ensures { (out : G → ℕ) → CountsOut G.Gate out → (before after : WorkerWithGate G)
        (works : WorksInTurns G.Gate G.Conn.Source.own G.Conn.Sink.own before after) → out works.in_turns.served ≡ out before.gate }
{}

/// A worker that stopped though it may serve more asked its gate once more, and got no connection. One whose gate failed had that
/// answer of it.
pub fn workers_ask_until_they_get_none<G: Gate>()
    ensures more { (before after : WorkerWithGate G) (works : WorksInTurns G.Gate G.Conn.Source.own G.Conn.Sink.own before after) →
        0 < after.state.left → G.next_gives works.in_turns.served (none_by after.state.fault) works.in_turns.stopped }
    ensures failed { (before after : WorkerWithGate G) (works : WorksInTurns G.Gate G.Conn.Source.own G.Conn.Sink.own before after) →
        after.state.fault ≡ true → G.next_gives works.in_turns.served Next.Fault works.in_turns.stopped }
{}

/// A worker that puts its share of a load asks the calls of all three parts one after another, as a lone caller does: what it
/// sees while it meets the others belongs to the call that comes next, or to none after the last.
pub fn workers_of_a_load_ask_their_share()
    ensures { (caller : Caller) (before queried after : List Event) (texts : List (List ℕ)) (workers : ℕ) (course : Course) (to_queries : List Reply) →
        ComesToQueries caller before texts workers course →
        AreAsked caller course.met_deleted queried (queries_of workers caller.pass) to_queries → IsFrontOf caller.pass queried after →
        AsksShare caller before after texts workers (course.to_adds ++ course.to_deletes ++ to_queries) }
{}
