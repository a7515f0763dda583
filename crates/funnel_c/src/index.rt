//! An index with what it keeps for C.
ghost use Rattle.std.specs.Prelude.{◌≡◌, ◌⊎◌, IfErr, IfOk, OnErr};
ghost use Rattle.funnel_model.specs.Configuration.{IsValid};
ghost use Rattle.funnel_c.specs.declared.code.Code.TheVariants as code;
ghost use Rattle.funnel_c.specs.Answers.{code_of_spent, number_if_ok, numbers_told};
ghost use Rattle.funnel_c.specs.Calls.{HasNoMemory, IsNew, IsNoConfig, OpensBy, TellsNumbers, TellsPlace, became};

use crate::code::Code;
use crate::numbers::Numbers;
use engine::{Config, ConfigFault, Ids, Memory, Solo, Spent, Stats, parse_config};
use std::alloc::Global;

/// An index of one owner, and what its last calls found.
#[derive(Drop)]
pub struct Index {
    pub solo: Solo,
    /// The numbers of the last search, or of the last journal's documents.
    pub ids: Ids,
    /// The text of the last get, or the signs of the last journal.
    pub bytes: Vec<u8>,
}

impl Index {
    /// An empty index by the configuration of these bytes, or why there is none.
    pub fn open(alloc: Global, bytes: &[u8], fault: &mut u64) -> Result<Box<Index>, Code>
        ensures opened { IfOk result (λ index. OpensBy bytes.now index.value code.Done (became fault.old fault.new)) }
        ensures refused { IfErr result (λ told. IsNoConfig bytes.now told (became fault.old fault.new)
            ⊎ HasNoMemory told (became fault.old fault.new)) }
    {
        match parse_config(alloc, bytes) {
            Ok(config) => match Index::of(alloc, config) {
                Ok(index) => Ok(index),
                Err(_) => Err(Code::Memory),
            },
            Err(ConfigFault::Memory) => Err(Code::Memory),
            Err(cause) => {
                *fault = u64::from(cause.number());
                Err(Code::NoConfig)
            }
        }
    }

    fn of(alloc: Global, config: Config) -> Result<Box<Index>, Memory>
        requires { IsValid config }
        ensures { IfOk result (λ index. IsNew config index.value) }
    {
        let solo = Solo::open(alloc, config)?;
        let ids = Ids::new(Vec::new(alloc));
        let bytes = Vec::new(alloc);
        Ok(Box::new(alloc, Index { solo, ids, bytes })?)
    }

    /// The number of commits so far.
    pub fn place(&mut self, place: &mut u64) -> Code
        ensures { TellsPlace self.old self.new result (became place.old place.new) }
    {
        let answer = self.solo.place();
        tell_place(answer, place)
    }

    /// How full it is.
    pub fn stats(&mut self, numbers: &mut Numbers) -> Code
        ensures { TellsNumbers self.old self.new result (became numbers.old numbers.new) }
    {
        let answer = self.solo.stats();
        tell_numbers(answer, numbers)
    }
}

fn tell_place(answer: Result<u64, Spent>, place: &mut u64) -> Code
    ensures code { result ≡ code_of_spent answer }
    ensures place { place.new ≡ number_if_ok answer place.old }
{
    match answer {
        Ok(at) => {
            *place = at;
            Code::Done
        }
        Err(_) => Code::Spent,
    }
}

fn tell_numbers(answer: Result<Stats, Spent>, numbers: &mut Numbers) -> Code
    ensures code { result ≡ code_of_spent answer }
    ensures numbers { numbers.new ≡ numbers_told answer numbers.old }
{
    match answer {
        Ok(stats) => {
            *numbers = Numbers::of(stats);
            Code::Done
        }
        Err(_) => Code::Spent,
    }
}
