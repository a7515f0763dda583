//! A law of streams and gates in memory, over their definitions alone. It is the contract of a function that does nothing.
ghost use Rattle.std.specs.Prelude.{◌≡◌, ◌≤◌, ⊤, ℕ, List};
ghost use Rattle.funnel_io.specs.Answers.{MatchGot};
ghost use Rattle.funnel_io.specs.MemGates.{IsNext, IsOpened, MemConn, MemGateState};
ghost use Rattle.funnel_io.specs.Memory.{IsRead, IsWrite, SinkState, SourceState};
ghost use Rattle.funnel_io.specs.declared.gate.Next.{Next};
ghost use Rattle.funnel_io.specs.declared.gate.Opening.{Opening};
ghost use Rattle.funnel_io.specs.declared.sink.Put.{Put};
ghost use Rattle.funnel_io.specs.declared.source.Got.{Got};

/// A call on a source, a sink or a gate in memory has one answer, by how it stood and what it was handed: which calls fail, how
/// much each other one gives or takes, and which connection is next.
pub fn calls_in_memory_have_one_answer()
    ensures reads { (old : SourceState) (room : ℕ) (answer other : Got) (new also : SourceState) →
        IsRead old room answer new → IsRead old room other also →
        MatchGot answer (λ n. 1 ≤ n) ⊤ ⊤ → MatchGot other (λ n. 1 ≤ n) ⊤ ⊤ → answer ≡ other }
    ensures writes { (old : SinkState) (piece : List ℕ) (answer other : Put) (new also : SinkState) →
        IsWrite old piece answer new → IsWrite old piece other also → answer ≡ other }
    ensures nexts { (old : MemGateState) (answer other : Next MemConn) (new also : MemGateState) →
        IsNext old answer new → IsNext old other also → answer ≡ other }
    ensures openings { (old : MemGateState) (answer other : Opening) (new also : MemGateState) →
        IsOpened old answer new → IsOpened old other also → answer ≡ other }
{}
