ghost use Rattle.std.specs.Prelude.{◌≡◌, length};

use std::marker::Model;

/// A change of the live documents: an add or a delete, and the document's number.
#[derive(Clone, Copy, Debug, PartialEq, Eq)]
pub struct Commit {
    pub add: bool,
    pub id: u64,
}

/// Commits in order. Contracts see them as a list.
#[derive(Debug, Drop)]
pub struct Commits {
    commits: Vec<Commit>,
}

impl Model for Commits {
    ghost use Rattle.std.specs.Prelude.{List};
    ghost use Rattle.funnel_model.specs.declared.commit.Commit.{Commit};

    ghost Value = { List Commit };

    ghost view = { λ l. l.commits.items };
}

impl Commits {
    pub fn new(commits: Vec<Commit>) -> Self
        ensures { result ≡ commits.items }
    {
        Commits { commits }
    }

    pub fn len(&self) -> usize
        ensures { result ≡ length self.now }
    {
        self.commits.len()
    }

    pub fn as_slice(&self) -> &[Commit]
        ensures { result.now ≡ self.now }
    {
        self.commits.as_slice()
    }

    /// The commits that it was made of.
    pub fn into_inner(self) -> Vec<Commit>
        ensures { result.items ≡ self }
    {
        self.commits
    }
}
