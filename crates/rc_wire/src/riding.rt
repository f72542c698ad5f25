// Parties that write down what they do at each call, for the tests.
ghost use Rattle.std.specs.Prelude.{◌≡◌, ◌+◌, true, false, length, vec_len, None, OnOk};
ghost use Rattle.rc_wire.specs.Parties.{is_client as is_of_client};
ghost use Rattle.rc_wire.specs.Standings.{standing, at_first, after};
ghost use Rattle.rc_wire.specs.declared.turn.Act.TheVariants.{Rested as Resting};

use crate::{
    Act, HaltCause, History, Pass, Passes, PostFault, StepEnd, Taken, Want, Wire, WireName,
};
use rc_ids::{NoMemory, Party, Sends};
use std::alloc::Global;
use std::sync::Wait;
use std::thread;

/// What a party did, as it counts it.
#[derive(Clone, Copy, Debug, PartialEq, Eq)]
pub enum Deed {
    Sent,
    Took(u32),
    Handled,
    Ended,
    Other,
}

impl Deed {
    /// What an entry of the history says.
    pub fn of(act: &Act) -> Deed {
        match act {
            Act::Took(number) => Deed::Took(*number),
            Act::Posted {
                end: StepEnd::Idle,
                sends: _,
            } => Deed::Sent,
            Act::Posted {
                end: StepEnd::Handled,
                sends: _,
            } => Deed::Handled,
            Act::Rested { ended: true } => Deed::Ended,
            _ => Deed::Other,
        }
    }
}

/// What a take came to.
#[derive(Clone, Copy, Debug, PartialEq, Eq)]
pub enum Answer {
    Mail(u32),
    Empty,
    Closed,
}

/// A party with its pass, what it did, and whether it came to the end of its work.
#[derive(Drop)]
pub struct Rider<W: WireName> {
    pub party: Party,
    pub pass: Pass<W>,
    pub deeds: Vec<Deed>,
    pub is_done: bool,
}

impl<W: WireName> Rider<W> {
    /// Writes down what it did.
    fn note(&mut self, deed: Deed) -> Result<(), NoMemory>
        ensures { self.new.pass ≡ self.old.pass }
    {
        self.deeds.push(deed)?;
        Ok(())
    }

    /// A command of a client, which sends these messages.
    pub fn send<R: Wait>(&mut self, rt: &R, wire: &Wire<W>, out: &Sends) -> Result<(), PostFault>
        requires client { is_of_client self.old.pass.party ≡ true }
        requires first { standing self.old.pass.mine ≡ at_first }
        ensures client { is_of_client self.new.pass.party ≡ true }
        ensures first { standing self.new.pass.mine ≡ at_first }
    {
        wire.post(rt, &mut self.pass, StepEnd::Idle, out)?;
        self.note(Deed::Sent)?;
        Ok(())
    }

    /// Takes a message, and posts that it is handled.
    pub fn answer<R: Wait>(
        &mut self,
        rt: &R,
        wire: &Wire<W>,
        want: Want,
        nothing: &Sends,
    ) -> Result<Answer, PostFault>
        requires { ((standing self.old.pass.mine).unanswered ≡ None) × ((standing self.old.pass.mine).waiting ≡ false) }
        ensures same { OnOk result (standing self.new.pass.mine ≡ standing self.old.pass.mine) }
        ensures halted { (standing self.new.pass.mine).halted ≡ (standing self.old.pass.mine).halted }
        ensures party { self.new.pass.party ≡ self.old.pass.party }
    {
        let number = match wire.take(rt, &mut self.pass, want) {
            Taken::Mail {
                number,
                from: _,
                bytes: _,
            } => number,
            Taken::Empty => return Ok(Answer::Empty),
            Taken::Closed => return Ok(Answer::Closed),
            Taken::NoMemory => return Err(PostFault::NoMemory),
        };
        wire.post(rt, &mut self.pass, StepEnd::Handled, nothing)?;
        self.note(Deed::Took(number))?;
        self.note(Deed::Handled)?;
        Ok(Answer::Mail(number))
    }

    /// The party has ended for good.
    pub fn end<R: Wait>(&mut self, rt: &R, wire: &Wire<W>) -> Result<(), PostFault>
        requires { standing self.old.pass.mine ≡ at_first }
        ensures { standing self.new.pass.mine ≡ after at_first (Resting true) }
    {
        wire.rest(rt, &mut self.pass, true);
        self.note(Deed::Ended)?;
        Ok(())
    }

    /// Takes until no message comes any more.
    fn finish<R: Wait>(&mut self, rt: &R, wire: &Wire<W>, nothing: &Sends) -> Result<(), PostFault>
        requires { standing self.old.pass.mine ≡ after at_first (Resting true) }
        ensures { (standing self.new.pass.mine).halted ≡ false }
    {
        for _ in rt.forever() {
            match self.answer(rt, wire, Want::Any, nothing)? {
                Answer::Mail(_) => (),
                Answer::Empty => thread::yield_now(),
                Answer::Closed => return Ok(()),
            }
        }
        unreachable!()
    }

    /// Sends so many times, takes once after each, ends, and takes until no message comes any more.
    fn work<R: Wait>(
        &mut self,
        rt: &R,
        wire: &Wire<W>,
        out: &Sends,
        nothing: &Sends,
        times: u32,
    ) -> Result<(), PostFault>
        requires client { is_of_client self.old.pass.party ≡ true }
        requires first { standing self.old.pass.mine ≡ at_first }
        ensures { (standing self.new.pass.mine).halted ≡ false }
    {
        for _ in 0..times {
            self.send(rt, wire, out)?;
            self.answer(rt, wire, Want::Any, nothing)?;
        }
        self.end(rt, wire)?;
        self.finish(rt, wire, nothing)
    }
}

/// What a thread has: a client that did nothing yet, and what it sends.
#[derive(Drop)]
pub struct Job<W: WireName> {
    pub rider: Rider<W>,
    pub out: Sends,
    pub nothing: Sends,
    ghost client: { is_of_client rider.pass.party ≡ true },
    ghost first: { standing rider.pass.mine ≡ at_first },
}

impl<W: WireName> Job<W> {
    pub fn new(rider: Rider<W>, out: Sends, nothing: Sends) -> Job<W>
        requires client { is_of_client rider.pass.party ≡ true }
        requires first { standing rider.pass.mine ≡ at_first }
    {
        Job {
            rider,
            out,
            nothing,
        }
    }
}

/// Does the work. Where it does not come to its end, it halts the wire, so that no other party waits for it.
pub fn ride<R: Wait, W: WireName>(rt: &R, wire: &Wire<W>, job: Job<W>, times: u32) -> Rider<W> {
    let Job {
        mut rider,
        out,
        nothing,
    } = job;
    match rider.work(rt, wire, &out, &nothing, times) {
        Ok(()) => rider.is_done = true,
        Err(_) => wire.halt(rt, &mut rider.pass, HaltCause::NoMemory),
    }
    rider
}

/// What one party did, and whether it came to the end of its work.
#[derive(Drop)]
pub struct Record {
    party: Party,
    pub deeds: Vec<Deed>,
    pub is_done: bool,
}

/// What a closed wire left.
#[derive(Drop)]
pub struct Closed {
    pub history: History,
    pub records: Vec<Record>,
}

/// Closes the wire with the passes of these parties.
pub fn close<W: WireName>(
    alloc: Global,
    wire: Wire<W>,
    mut passes: Passes<W>,
    riders: Vec<Rider<W>>,
) -> Result<Closed, NoMemory>
    requires { length passes + vec_len riders ≡ length W.names.parties }
{
    let mut records = Vec::new(alloc);
    for rider in riders {
        let Rider {
            party,
            pass,
            deeds,
            is_done,
        } = rider;
        passes.push(pass);
        records.push(Record {
            party,
            deeds,
            is_done,
        })?;
    }
    let history = wire.close(passes);
    Ok(Closed { history, records })
}

/// Whether the party's entries in the history are what it did, in order.
pub fn is_as_counted(record: &Record, history: &History) -> bool {
    let mut next = 0usize;
    for turn in history.turns() {
        if turn.party.is(&record.party) {
            let deed = Deed::of(&turn.act);
            if record.deeds.get(next).copied() != Some(deed) {
                return false;
            }
            next = next.saturating_add(1);
        }
    }
    next == record.deeds.len()
}
