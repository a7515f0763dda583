ghost use Rattle.std.specs.Prelude.{◌≡◌, ◌↔◌, ◌<◌, ◌^◌, length, IsTrue, Option, Some, None, replicate, slice_index_or, slice_set, MatchOption, IfOk, IsSome, count_by};
ghost use Rattle.std.specs.Option.{is_some};
ghost use Rattle.token_manager.specs.Guarding.{IsLowestBefore, IsNewestAsker, IsNewestIn, IsOldest, IsWithin, NoneBefore, NoneMayAsk, NoneOpen, is_of, newer, older};

use funnel_model::Memory;
use std::alloc::Global;
use std::marker::Model;

/// The open tokens of all passes. Contracts see a list by pass, with the number of the event that opened its token.
#[derive(Debug, Drop)]
pub struct Tokens {
    open: Vec<Option<u64>>,
    // The pass of the newest one, with the number of the event that opened it.
    newest: Option<(u32, u64)>,
}

impl Model for Tokens {
    ghost use Rattle.std.specs.Prelude.{ℕ, ◌<◌, ◌^◌, List, None, Option, length};
    ghost use Rattle.token_manager.specs.Guarding.{IsNewestIn};

    ghost Value = { List (Option ℕ) };

    ghost view = { λ t. t.open.items };

    ghost invariant = { λ t. (length t.open.items < 2 ^ 32) × IsNewestIn t.open.items None t.newest };
}

impl Tokens {
    /// Takes the room for this many passes, none of which has a token.
    pub fn new(alloc: Global, passes: u32) -> Result<Tokens, Memory>
        ensures { IfOk result (λ tokens. tokens ≡ replicate passes None) }
    {
        Ok(Tokens {
            open: vec![in alloc; None; passes as usize]?,
            newest: None,
        })
    }

    /// Opens the pass's token.
    pub fn open(&mut self, pass: u32, event: u64)
        requires in_range { pass < length self.old }
        requires none { slice_index_or self.old pass None ≡ None }
        ensures { self.new ≡ slice_set self.old pass (Some event) }
    {
        self.open[pass as usize] = Some(event);
        self.newest = newer(self.newest, pass, event);
    }

    /// Ends the pass's token. Where that was the newest one, it walks over the passes.
    pub fn end(&mut self, pass: u32)
        requires { IsSome (slice_index_or self.old pass None) }
        ensures { self.new ≡ slice_set self.old pass None }
    {
        self.open[pass as usize] = None;
        if is_of(self.newest, pass) {
            self.newest = newest_before(self.open.as_slice(), None);
        }
    }

    /// The number of the event that opened the pass's token, where it has one open.
    pub fn opened_at(&self, pass: u32) -> Option<u64>
        ensures { result ≡ slice_index_or self.now pass None }
    {
        self.open.get(pass as usize).copied().flatten()
    }

    /// The lowest pass whose token was opened before this event, with the number of its own. It walks over the passes.
    pub fn guard_of(&self, retired_at: u64) -> Option<(u32, u64)>
        ensures { MatchOption result (NoneBefore self.now retired_at) (λ guard. IsLowestBefore self.now retired_at guard.0 guard.1) }
    {
        for (pass, token) in self.open.iter().enumerate() {
            match token {
                Some(event) if *event < retired_at => return Some((pass as u32, *event)),
                _ => {}
            }
        }
        None
    }

    /// The pass whose find may ask for a document that the first event put into its column and the second took off, and the newest such pass
    /// where there are several. It walks over the passes where a find began after the second event.
    pub fn asker(&self, since: u64, until: u64) -> Option<u32>
        ensures { MatchOption result (NoneMayAsk self.now since until) (IsNewestAsker self.now since until) }
    {
        let (pass, event) = self.newest?;
        if event <= since {
            return None;
        }
        if event < until {
            return Some(pass);
        }
        let (pass, event) = newest_before(self.open.as_slice(), Some(until))?;
        if event <= since {
            return None;
        }
        Some(pass)
    }

    /// How many tokens are open. It walks over the passes.
    pub fn count(&self) -> u64
        ensures { result ≡ count_by is_some self.now }
    {
        let mut count = 0;
        for token in self.open.iter() {
            count += token.is_some() as u64;
        }
        count
    }

    /// The number of the oldest open token, where one is open. It walks over the passes.
    pub fn oldest(&self) -> Option<u64>
        ensures { MatchOption result (NoneOpen self.now) (IsOldest self.now) }
    {
        let mut oldest = None;
        for token in self.open.iter() {
            oldest = older(oldest, *token);
        }
        oldest
    }
}

// The older of two tokens, where there are such.
fn older(oldest: Option<u64>, token: Option<u64>) -> Option<u64>
    ensures { result ≡ older oldest token }
{
    match (oldest, token) {
        (Some(first), Some(second)) => Some(first.min(second)),
        (Some(first), None) => Some(first),
        (None, other) => other,
    }
}

// The newest of the tokens that were opened before an event, or at all, with its pass. It walks over the passes.
fn newest_before(tokens: &[Option<u64>], until: Option<u64>) -> Option<(u32, u64)>
    requires { length tokens.now < 2 ^ 32 }
    ensures { IsNewestIn tokens.now until result }
{
    let mut newest = None;
    for (pass, token) in tokens.iter().enumerate() {
        let Some(event) = *token else { continue };
        if is_within(until, event) {
            newest = newer(newest, pass as u32, event);
        }
    }
    newest
}

// The newer of a token, where there is one, and another.
fn newer(newest: Option<(u32, u64)>, pass: u32, event: u64) -> Option<(u32, u64)>
    ensures { result ≡ newer newest pass event }
{
    match newest {
        Some((other, later)) if event <= later => Some((other, later)),
        _ => Some((pass, event)),
    }
}

// Whether it is the pass's.
fn is_of(newest: Option<(u32, u64)>, pass: u32) -> bool
    ensures { result ≡ is_of newest pass }
{
    match newest {
        Some((other, _)) => other == pass,
        None => false,
    }
}

// Whether the event comes before another, where there is one.
fn is_within(until: Option<u64>, event: u64) -> bool
    ensures { IsTrue result ↔ IsWithin until event }
{
    match until {
        Some(until) => event < until,
        None => true,
    }
}
