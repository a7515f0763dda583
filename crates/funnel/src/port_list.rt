ghost use Rattle.std.specs.Prelude.{◌≡◌, ℕ, List, length};

use std::marker::Model;

/// Ports, in the order of the workers that listen on them. Contracts see them as a list.
#[derive(Debug, Drop)]
pub struct Ports {
    ports: Vec<u32>,
}

impl Model for Ports {
    ghost Value = { List ℕ };

    ghost view = { λ p. p.ports.items };
}

impl Ports {
    pub fn new(ports: Vec<u32>) -> Self
        ensures { result ≡ ports.items }
    {
        Ports { ports }
    }

    pub fn len(&self) -> usize
        ensures { result ≡ length self.now }
    {
        self.ports.len()
    }

    pub fn as_slice(&self) -> &[u32]
        ensures { result.now ≡ self.now }
    {
        self.ports.as_slice()
    }

    /// The ports that it was made of.
    pub fn into_inner(self) -> Vec<u32>
        ensures { result.items ≡ self }
    {
        self.ports
    }
}
