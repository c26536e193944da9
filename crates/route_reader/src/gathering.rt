//! What is gathered of a solution's text, token by token.
ghost use Rattle.std.specs.Prelude.{◌≡◌, ℕ, ◌<◌, ◌==◌, false, List, [], ◌∷◌, ◌++◌, length, Some, IfOk, IfSome, OnOk};
ghost use Rattle.std.specs.List.{list_any};
ghost use Rattle.gr_base.specs.Designs.{DesignView, net_with_id};
ghost use Rattle.solution_text.specs.Grammar.{Progress, start, step, step_in, net_of, is_end, is_number, with_run};
ghost use Rattle.solution_text.specs.Grammar as grammar;
ghost use Rattle.route_reader.specs.Solutions.{IsRun};
ghost use Rattle.route_reader.specs.Gathered.{Fits, Flags, Gathers, Steps, net_in};

use crate::solution::Stretch;
use crate::spot::segment;
use gr_base::{Design, MOST_ID};
use gr_text::whole_of;
use solution_text::{Run, SolutionFault};
use std::alloc::{AllocError, Global};

/// Where the text stands in a record.
#[derive(Clone, Copy)]
pub(crate) enum Position {
    /// Between two records.
    Between,
    /// Behind a record's name.
    Named,
    /// Right behind the id of this net.
    First(u32),
    /// Farther on in the record of this net.
    Within(u32),
}

/// Why a token wasn't taken.
#[derive(Clone, Copy)]
pub(crate) enum Refusal {
    Fault(SolutionFault),
    NoMemory,
}

impl From<SolutionFault> for Refusal {
    ghost use Rattle.std.specs.Prelude.{◌≡◌};
    ghost use Rattle.route_reader.specs.declared.gathering.Refusal.TheVariants.{Fault};

    ghost from_gives = { λ fault refusal. refusal ≡ Fault fault };

    fn from(fault: SolutionFault) -> Self {
        Refusal::Fault(fault)
    }
}

impl From<AllocError> for Refusal {
    ghost use Rattle.std.specs.Prelude.{◌≡◌};
    ghost use Rattle.route_reader.specs.declared.gathering.Refusal.TheVariants.{NoMemory};

    ghost from_gives = { λ _ refusal. refusal ≡ NoMemory };

    fn from(_error: AllocError) -> Self {
        Refusal::NoMemory
    }
}

/// The records of a text up to a token.
#[derive(Drop)]
pub(crate) struct Gathering {
    pub(crate) position: Position,
    /// The name of the record in hand, until its id is read.
    pub(crate) name: Vec<u8>,
    /// Whether a net has a record.
    pub(crate) met: Vec<bool>,
    /// Where each net's runs stand.
    pub(crate) stretches: Vec<Stretch>,
    /// The runs of all records, in the order of the text.
    pub(crate) runs: Vec<Run>,
}

/// The number of the net with an id.
fn net_with_id(design: &Design, id: u32) -> Option<u32>
    ensures net { result ≡ net_with_id design.now id }
    ensures within { IfSome result (λ net. net < length design.now.nets) }
{
    design.net_of_id(id)
}

/// The net whose record begins with this name and this id.
fn net_of(design: &Design, met: &[bool], name: &[u8], id: &[u8]) -> Result<u32, SolutionFault>
    requires met { length met.now ≡ length design.now.nets }
    ensures net { (nets : List ℕ) → Flags (length design.now.nets) nets met.now →
        result ≡ net_of design.now nets name.now id.now }
    ensures within { IfOk result (λ net. net < length design.now.nets) }
{
    let Some(id) = whole_of(id, 0, i64::from(MOST_ID)) else {
        return Err(SolutionFault::Number);
    };
    let Some(net) = net_with_id(design, id as u32) else {
        return Err(SolutionFault::UnknownId);
    };
    if design.net(net).name.bytes() != name {
        return Err(SolutionFault::Name);
    }
    if met[net as usize] {
        return Err(SolutionFault::RepeatedNet);
    }
    Ok(net)
}

/// Whether the token ends a record.
fn is_end(token: &[u8]) -> bool
    ensures { result ≡ is_end token.now }
{
    token == b"!".as_slice()
}

/// Whether the token is a number that may stand right behind an id.
fn is_number(token: &[u8]) -> bool
    ensures { result ≡ is_number token.now }
{
    whole_of(token, 0, i64::from(MOST_ID)).is_some()
}

impl Gathering {
    /// No record yet, of so many nets.
    pub(crate) fn new(alloc: Global, nets: u32) -> Result<Self, AllocError>
        ensures { (d : DesignView) → nets ≡ length d.nets → IfOk result (Gathers d start) }
    {
        let nowhere = Stretch { start: 0, end: 0 };
        Ok(Gathering {
            position: Position::Between,
            name: Vec::new(alloc),
            met: vec![in alloc; false; nets as usize]?,
            stretches: vec![in alloc; nowhere; nets as usize]?,
            runs: Vec::new(alloc),
        })
    }

    /// Begins a record by its name.
    fn begin_record(&mut self, name: &[u8]) -> Result<(), AllocError>
        ensures { (d : DesignView) → (s : Progress) → Gathers d s self.old →
            OnOk result (Gathers d (record s { mode = grammar.Named name.now }) self.new) }
    {
        self.name.clear();
        self.name.extend_from_slice(name)?;
        self.position = Position::Named;
        Ok(())
    }

    /// Begins the runs of a net, which has no record so far.
    fn begin_net(&mut self, net: u32)
        requires met { net < length self.old.met.items }
        requires stretches { net < length self.old.stretches.items }
        ensures { (d : DesignView) → (s : Progress) → Gathers d s self.old →
            list_any (λ other. other == net) s.met ≡ false →
            Gathers d (record { mode = grammar.First net; met = net ∷ s.met; found = s.found }) self.new }
    {
        let at = self.runs.len();
        self.met[net as usize] = true;
        self.stretches[net as usize] = Stretch { start: at, end: at };
        self.position = Position::First(net);
    }

    /// Adds a run to the net whose record is in hand.
    fn push(&mut self, net: u32, run: Run) -> Result<(), AllocError>
        requires stretches { net < length self.old.stretches.items }
        ensures { (d : DesignView) → (s : Progress) → Gathers d s self.old → net_in s.mode ≡ Some net →
            IsRun d.frame.shape run →
            let next : Progress = record { mode = grammar.Within net; met = s.met; found = s.found ++ (net, run) ∷ [] } in
            OnOk result (Gathers d next self.new) }
    {
        self.runs.push(run)?;
        self.stretches[net as usize].end = self.runs.len();
        self.position = Position::Within(net);
        Ok(())
    }

    /// Takes the id of a record.
    fn take_id(&mut self, design: &Design, id: &[u8]) -> Result<(), Refusal>
        requires fits { Fits design.now self.old }
        ensures { (s : Progress) → Gathers design.now s self.old → s.mode ≡ grammar.Named self.old.name.items →
            Steps (step design.now s id.now) (λ t. Gathers design.now t self.new) result }
    {
        let net = net_of(design, &self.met, &self.name, id)?;
        self.begin_net(net);
        Ok(())
    }

    /// Takes a segment of the net whose record is in hand.
    fn take_segment(&mut self, design: &Design, net: u32, token: &[u8]) -> Result<(), Refusal>
        requires stretches { net < length self.old.stretches.items }
        ensures { (s : Progress) → Gathers design.now s self.old → net_in s.mode ≡ Some net →
            Steps (with_run design.now s net token.now) (λ t. Gathers design.now t self.new) result }
    {
        let run = segment(design, token)?;
        self.push(net, run)?;
        Ok(())
    }

    /// Takes a token that isn't the number behind an id.
    fn take_item(&mut self, design: &Design, net: u32, token: &[u8]) -> Result<(), Refusal>
        requires stretches { net < length self.old.stretches.items }
        ensures { (s : Progress) → Gathers design.now s self.old → net_in s.mode ≡ Some net →
            Steps (step_in design.now s token.now (grammar.Within net)) (λ t. Gathers design.now t self.new) result }
    {
        if is_end(token) {
            self.position = Position::Between;
            return Ok(());
        }
        self.take_segment(design, net, token)
    }

    /// Takes the next token, by the rule for its place in a record.
    pub(crate) fn take(&mut self, design: &Design, token: &[u8]) -> Result<(), Refusal>
        requires fits { Fits design.now self.old }
        ensures { (s : Progress) → Gathers design.now s self.old →
            Steps (step design.now s token.now) (λ t. Gathers design.now t self.new) result }
    {
        match self.position {
            Position::Between => Ok(self.begin_record(token)?),
            Position::Named => self.take_id(design, token),
            Position::First(net) => {
                if is_number(token) {
                    self.position = Position::Within(net);
                    return Ok(());
                }
                self.take_item(design, net, token)
            }
            Position::Within(net) => self.take_item(design, net, token),
        }
    }
}
