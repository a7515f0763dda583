//! Laws of programs, over their definitions alone. Each is the contract of a function that does nothing.
ghost use Rattle.std.specs.Prelude.{◌≡◌, ◌<◌, ℕ, List, [], All, Option, None, Some, true, false, length, take};
ghost use Rattle.std.specs.List.{AllZip};
ghost use Rattle.engine.specs.Engines.{ClosedState};
ghost use Rattle.funnel_io.specs.Streams.{Incoming, Outgoing};
ghost use Rattle.funnel_io.specs.declared.line_reader.TheConstants.{MAX_LINE_LEN};
ghost use Rattle.funnel_model.specs.declared.config.Config.{Config};
ghost use Rattle.funnel_server.specs.Gates.{GateState, Sides};
ghost use Rattle.funnel_server.specs.Laws.{HasFewBytes};
ghost use Rattle.funnel_stats.specs.Configurations.{longest};
ghost use Rattle.http_front.specs.declared.framing.TheConstants.{MAX_BODY, MAX_FIELDS, MAX_HEAD};
ghost use Rattle.line_proto.specs.Forms.{items};
ghost use Rattle.load_gen.specs.declared.limits.TheConstants.{MOST_DOCS, MOST_WORDS};
ghost use Rattle.session.specs.declared.serving.TheConstants.{MOST_BYTES};
ghost use Rattle.command_line.specs.declared.command.TheConstants.{MOST_CONNECTIONS, MOST_FITTED, MOST_IDLE, MOST_PORT};
ghost use Rattle.command_line.specs.declared.command.Command.TheVariants as command;
ghost use Rattle.command_line.specs.declared.command.FitCommand.{FitCommand};
ghost use Rattle.command_line.specs.declared.command.LoadCommand.{LoadCommand};
ghost use Rattle.command_line.specs.declared.command.ServeCommand.{ServeCommand};
ghost use Rattle.funnel.specs.declared.ends.Why.{Why};
ghost use Rattle.command_line.specs.Commands.{command_of, is_serve};
ghost use Rattle.funnel.specs.Laws.{AllCallsAreOfSessions, AnswersInput, AreDue, CompletesFit, CompletesLoad, CompletesRun, CompletesServe};
ghost use Rattle.funnel.specs.Laws.{EndsWell, GateIsServed, IsAccepted, IsServedUnlessFailed, KeepsNoFault, NoStreamFailed, OneFailed, RepliesAreDue, TellsFew};
ghost use Rattle.funnel.specs.Programs.{Ends, Streams};
ghost use Rattle.funnel.specs.Runs.{Ran, first_caller, limits_by};
ghost use Rattle.funnel.specs.ServeRuns.{HaveAllServed, OneDidNotOpen, new_workers};
ghost use Rattle.funnel.specs.Turns.{EndsInTurns};

use funnel_io::{End, Gate};

/// Let the words be a command, the configuration valid, the command fit it, and no read, no write and no call of a gate fail.
/// Then a run whose input has fewer bytes than it may take answers all its lines, a serve gives each connection of its gates a session,
/// and a load is made and told, where none of them runs out of memory. A longer run ends at its limit of bytes. A serve that runs out
/// of memory gave each connection its session too, some of which found none, or took no connection, as does one of which a worker has no
/// thread. A fit, which has no need of the configuration, writes one where its input has as few bytes and one can be fitted to it.
pub fn programs_without_a_fault_end_well()
    ensures run { (words : List (List ℕ)) (before after : Streams) (why : Why) (closed : Option ClosedState) (config : Config) (bytes : List ℕ) →
        Ends words before after why closed → NoStreamFailed before after → IsAccepted words before command.Run config →
        TellsFew before.input bytes → CompletesRun config bytes before.output after.output why closed }
    ensures any_run { (words : List (List ℕ)) (before after : Streams) (why : Why) (closed : Option ClosedState) (config : Config) →
        Ends words before after why closed → NoStreamFailed before after → IsAccepted words before command.Run config → EndsWell why }
    ensures serve { (words : List (List ℕ)) (before after : Streams) (why : Why) (closed : Option ClosedState) (config : Config) (serve : ServeCommand) →
        Ends words before after why closed → NoStreamFailed before after → IsAccepted words before (command.Serve serve) config →
        CompletesServe config serve before.gates after.gates why closed }
    ensures load { (words : List (List ℕ)) (before after : Streams) (why : Why) (closed : Option ClosedState) (config : Config) (load : LoadCommand) →
        Ends words before after why closed → NoStreamFailed before after → IsAccepted words before (command.Load load) config →
        CompletesLoad config load before.output after.output why closed }
    ensures fit { (words : List (List ℕ)) (before after : Streams) (why : Why) (closed : Option ClosedState) (fit : FitCommand) (bytes : List ℕ) →
        Ends words before after why closed → NoStreamFailed before after → command_of words ≡ Some (command.Fit fit) →
        TellsFew before.input bytes → CompletesFit fit.documents bytes before.output after.output why }
{}

/// No reply of a run is that the history is spent, since a run can't take so many bytes. Only the lines that ask for an add, a put, a
/// text, a search, a journal or a tuning can be refused for want of memory; every other reply is the one of its event in the history,
/// what an expression keeps of the documents live at its find, or that of a line which is no call.
pub fn runs_take_every_call()
    ensures any { (config : Config) (incoming later_incoming : Incoming) (outgoing later_outgoing : Outgoing) (why : Why) (closed : ClosedState)
        (ran : Ran config incoming later_incoming outgoing later_outgoing why closed) →
        RepliesAreDue (first_caller config (limits_by config)) [] closed.history ran.serves.taken ran.serves.written ran.end ran.serves.session }
    ensures whole { (config : Config) (bytes : List ℕ) (before after : Outgoing) (closed : ClosedState)
        (answers : AnswersInput config bytes before after closed) →
        length bytes < MOST_BYTES → AreDue (items bytes true) answers.replies }
{}

/// The calls that each pass of a serve made are those of its worker's sessions, connection after connection, and no other ones.
pub fn the_calls_of_a_serve_are_those_of_its_sessions()
    ensures { (config : Config) (serve : ServeCommand) (before after : List GateState) (why : Why) (closed : ClosedState)
        (served : HaveAllServed config serve before after why closed) →
        AllCallsAreOfSessions closed.history (new_workers config (limits_by config) serve 0 before) served.workers served.work }
{}

/// Each gate of a serve, unless a call of it failed, had the first of its connections served, up to the stated number. Where it tells
/// those that came back, it keeps an end for each: with few bytes and no failed read or write it is Done, or want of memory where the
/// serve as a whole isn't done.
pub fn gates_without_a_fault_are_served()
    ensures { (config : Config) (serve : ServeCommand) (before after : List GateState) (why : Why) (closed : ClosedState) →
        HaveAllServed config serve before after why closed → AllZip (IsServedUnlessFailed serve why) before after }
{}

/// Where a serve is done, each of the connections that a gate tells of had all its lines answered, or all its requests up to one
/// whose response closes it, if they had few bytes and no read and no write of them failed.
pub fn connections_without_a_fault_are_done()
    ensures { (serve : ServeCommand) (before after : GateState) (served : GateIsServed serve Why.Done before after) (waiting : List Sides) →
        before.waiting ≡ Some waiting → All HasFewBytes (take serve.connections waiting) → All KeepsNoFault served.gained →
        All (λ one. one.session_end ≡ End.Done) served.gained }
{}

/// What `funnel_main` tells of an end is told with the calls of a serve on its gates; the laws here need no more than the end.
pub fn ends_are_told_with_their_turns<G: Gate>()
    ensures { (words : List (List ℕ)) (before after : Streams) (why : Why) (closed : Option ClosedState) (gates laters : List G) →
        EndsInTurns G.Gate G.Conn.Source.own G.Conn.Sink.own words before after why closed gates laters → Ends words before after why closed }
{}

/// A program gives back as many gates as it was handed. Where its words are no serve, they are as they came.
pub fn gates_come_back<G: Gate>()
    ensures count { (words : List (List ℕ)) (before after : Streams) (why : Why) (closed : Option ClosedState) (gates laters : List G) →
        EndsInTurns G.Gate G.Conn.Source.own G.Conn.Sink.own words before after why closed gates laters → length laters ≡ length gates }
    ensures unused { (words : List (List ℕ)) (before after : Streams) (why : Why) (closed : Option ClosedState) (gates laters : List G) →
        EndsInTurns G.Gate G.Conn.Source.own G.Conn.Sink.own words before after why closed gates laters →
        is_serve (command_of words) ≡ false → laters ≡ gates }
{}

/// A program ends with a gate fault only where a gate answered that it failed, as it was opened or asked for a connection.
pub fn gate_faults_are_answers_of_gates<G: Gate>()
    ensures { (words : List (List ℕ)) (before after : Streams) (why : Why) (closed : Option ClosedState) (gates laters : List G) →
        EndsInTurns G.Gate G.Conn.Source.own G.Conn.Sink.own words before after why closed gates laters → why ≡ Why.GateFault → OneFailed G.Gate laters }
{}

/// A program that had no engine ends with a gate fault only where one gate failed as it was opened: the count of its faults rose, and
/// no connection of any gate was taken.
pub fn gates_that_do_not_open_leave_their_connections()
    ensures { (words : List (List ℕ)) (before after : Streams) → Ends words before after Why.GateFault None → OneDidNotOpen before.gates after.gates }
{}

/// Where no gate is closed, as gates over TCP never are, each worker of a serve that is done served the stated number of connections.
pub fn gates_that_stay_open_are_served_to_their_number()
    ensures { (config : Config) (serve : ServeCommand) (before after : List GateState) (closed : ClosedState)
        (served : HaveAllServed config serve before after Why.Done closed) →
        All (λ gate. gate.is_closed ≡ false) after → All (λ worker. worker.left ≡ 0) served.workers }
{}

/// The last port that there is, the most connections of a worker, seconds of a wait and documents of a fit, the most bytes of a run, and
/// the most documents of a load and words of each.
pub fn numbers_of_the_program()
    ensures port { MOST_PORT ≡ 65535 }
    ensures connections { MOST_CONNECTIONS ≡ 4294967296 }
    ensures idle { MOST_IDLE ≡ 86400 }
    ensures fitted { MOST_FITTED ≡ 4194304 }
    ensures bytes { MOST_BYTES ≡ 1099511627776 }
    ensures docs { MOST_DOCS ≡ 4194304 }
    ensures words { MOST_WORDS ≡ 1000 }
{}

/// The most bytes of a configuration, of a line, and of the head and the body of a request over HTTP, and the most fields of the head.
pub fn numbers_of_what_is_read()
    ensures config { longest ≡ 16777216 }
    ensures line { MAX_LINE_LEN ≡ 65536 }
    ensures head { MAX_HEAD ≡ 16384 }
    ensures body { MAX_BODY ≡ 65536 }
    ensures fields { MAX_FIELDS ≡ 32 }
{}
