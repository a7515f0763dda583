//! What has to be seen of a program that ended.
use funnel::{Misfit, ProgramEnd, Why};
use funnel_io::{End, MemGate, ServedConn};
use funnel_model::Commit;

/// How a session ended, and what it wrote.
pub(crate) type Session = (End, &'static [u8]);

/// What has to be seen, beside the status.
pub(crate) enum Wanted {
    /// This is written.
    Text(&'static str),
    /// This misfit is told, and nothing is written.
    Misfit(Misfit),
    /// Each gate has served these sessions, and nothing is written.
    Sessions(&'static [&'static [Session]]),
    /// The one gate has served so many sessions, the last of which is this one, and nothing is written.
    Last(usize, Session),
    /// Each gate has got so many calls of `open`, and has served so many sessions. It was ended once. An engine is left just where
    /// the status is 0, and nothing is written.
    Openings(&'static [(u64, usize)]),
    /// So many commits are no longer kept, and these are left.
    Left(u64, &'static [Commit]),
    /// The adds go over from documents of one worker to those of the other more than once.
    Turns,
}

/// Whether this is seen.
pub(crate) fn is_seen(ended: &ProgramEnd<MemGate>, written: &[u8], wanted: &Wanted) -> bool {
    match wanted {
        Wanted::Text(text) => written == text.as_bytes(),
        Wanted::Misfit(misfit) => written.is_empty() && tells(&ended.why, *misfit),
        Wanted::Sessions(sessions) => written.is_empty() && are_kept(&ended.gates, sessions),
        Wanted::Last(count, last) => written.is_empty() && keep_last(&ended.gates, *count, last),
        Wanted::Openings(called) => written.is_empty() && are_opened(ended, called),
        Wanted::Left(base, commits) => leaves(ended, *base, commits),
        Wanted::Turns => turns(ended) > 1,
    }
}

fn tells(why: &Why, misfit: Misfit) -> bool {
    match why {
        Why::Misfit(told) => *told == misfit,
        _ => false,
    }
}

fn is_kept(served: &ServedConn, session: &Session) -> bool {
    served.session_end == session.0 && served.conn.sink.bytes() == session.1
}

/// Whether a gate has served these sessions.
fn keeps(gate: &MemGate, sessions: &[Session]) -> bool {
    let mut as_wanted = gate.served().len() == sessions.len();
    for (served, session) in gate.served().iter().zip(sessions) {
        as_wanted = as_wanted && is_kept(served, session);
    }
    as_wanted
}

fn are_kept(gates: &[MemGate], wanted: &[&[Session]]) -> bool {
    let mut as_wanted = gates.len() == wanted.len();
    for (gate, sessions) in gates.iter().zip(wanted) {
        as_wanted = as_wanted && keeps(gate, sessions);
    }
    as_wanted
}

fn keep_last(gates: &[MemGate], count: usize, last: &Session) -> bool {
    match gates {
        [gate] => gate.served().len() == count && ends_with(gate.served(), last),
        _ => false,
    }
}

fn ends_with(served: &[ServedConn], last: &Session) -> bool {
    match served.last() {
        Some(served) => is_kept(served, last),
        None => false,
    }
}

fn are_opened(ended: &ProgramEnd<MemGate>, called: &[(u64, usize)]) -> bool {
    ended.closed.is_some() == (ended.status() == 0) && are_called(&ended.gates, called)
}

fn are_called(gates: &[MemGate], called: &[(u64, usize)]) -> bool {
    let mut as_wanted = gates.len() == called.len();
    for (gate, (opened, served)) in gates.iter().zip(called) {
        as_wanted = as_wanted
            && gate.opened() == *opened
            && gate.served().len() == *served
            && gate.ended() == 1;
    }
    as_wanted
}

fn leaves(ended: &ProgramEnd<MemGate>, base: u64, commits: &[Commit]) -> bool {
    match &ended.closed {
        Some(closed) => closed.base == base && closed.commits.as_slice() == commits,
        None => false,
    }
}

/// How often the adds go over from documents of one worker to those of the other: one has the odd numbers.
fn turns(ended: &ProgramEnd<MemGate>) -> u64 {
    let Some(closed) = &ended.closed else {
        return 0;
    };
    let mut turns: u64 = 0;
    let mut last = 1;
    for commit in closed.commits.as_slice().iter().take(2_000) {
        if commit.id % 2 != last {
            turns = turns.saturating_add(1);
            last = commit.id % 2;
        }
    }
    turns
}
