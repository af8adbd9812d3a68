//! One slot's connection.

ghost use Rattle.std.specs.Prelude.{◌≡◌, ◌+◌, ◌*◌, ◌≤◌, length, vec_capacity};
ghost use Rattle.alm_events.specs.Events.{most_told};
ghost use Rattle.arrayvec.specs.ArrayVec.{array_vec_len};
ghost use Rattle.alm_session.specs.Outputs.{output_limit, reply_limit};

use crate::intake::Intake;
use crate::output::{Output, Sent};
use crate::turn::Turn;
use crate::unanswered::Unanswered;
use crate::wire::{ReadGave, Wire};
use alm_board::{FreeLook, Look, Recall};
use alm_events::MOST_TOLD;
use alm_lines::{Ask, Line};
use alm_rings::{Busy, Console, MOST_OUT, Receipt, Told};
use alm_types::{Answer, Event, Query, Refusal, Verdict, Want};
use arrayvec::ArrayVec;
use std::alloc::{AllocError, Global};

/// One slot's connection.
#[derive(Drop)]
pub struct Session {
    intake: Intake,
    /// The actions that are unanswered, oldest first.
    waiting: ArrayVec<Unanswered, MOST_OUT>,
    output: Output,
    answer: Answer,
    /// What a reply reports of what happened.
    events: Vec<Event>,
    ghost told: { most_told ≤ vec_capacity events },
    ghost room: { output.used + reply_limit * array_vec_len waiting ≤ output_limit },
}

impl Session {
    ghost use Rattle.std.specs.Prelude.{◌≡◌, ◌+◌, ◌≤◌, ◌<◌, ◌⊎◌, ℕ, List, [], ◌∷◌, length, Option, None, Some, IfOk, true, false};
    ghost use Rattle.arrayvec.specs.ArrayVec.{array_vec_len};
    ghost use Rattle.alm_rings.specs.Ends.{SameConsole, coming_to, received_of};
    ghost use Rattle.alm_session.specs.Intakes.{lines_in};
    ghost use Rattle.alm_session.specs.Turns.{IsTurn, between, no_looks};
    ghost use Rattle.alm_session.specs.Unanswered.{Heard, IsReceiptOf};
    ghost use Rattle.alm_session.specs.declared.unanswered.Unanswered.{Unanswered};
    ghost use Rattle.alm_types.specs.declared.action.Action.{Action};
    ghost use Rattle.alm_types.specs.declared.want.Want.{Want};
    ghost use Rattle.alm_session.specs.Sides.{slot_state, side_over, heard_of, least_of, IsQuiet, IsStuck, IsTurnAtConsole, IsTurnWithin, ReadTurns, GoOnTurns, Turns};
    ghost use Rattle.std.specs.Prelude.{◌++◌, if◌then◌else◌, IsTrue};
    ghost use Rattle.alm_model.specs.Plant.{Condensed};
    ghost use Rattle.alm_lines.specs.Reply.{no_text};
    ghost use Rattle.alm_desk.specs.Answers.{verdict_reply};
    ghost use Rattle.alm_session.specs.declared.turn.Turn.TheVariants as turn;
    ghost use Rattle.alm_lines.specs.declared.ask.Ask.TheVariants as ask;

    /// A connection on which no byte has come.
    pub fn new(alloc: Global) -> Result<Self, AllocError>
        ensures held { IfOk result (λ s. s.intake ≡ record { line = None; held = []; rest = [] }) }
        ensures waiting { IfOk result (λ s. s.waiting.items ≡ []) }
        ensures left { IfOk result (λ s. s.output.left ≡ []) }
    {
        Ok(Session {
            intake: Intake::new(),
            waiting: ArrayVec::new(),
            output: Output::new(alloc)?,
            answer: Answer::new(alloc),
            events: Vec::with_capacity(alloc, MOST_TOLD)?,
        })
    }

    /// Another connection, on which no byte has come. It keeps its buffers.
    pub fn restart(&mut self)
        ensures held { self.new.intake ≡ record { line = None; held = []; rest = [] } }
        ensures waiting { self.new.waiting.items ≡ [] }
        ensures left { self.new.output.left ≡ [] }
        ensures refused { self.new.answer.refused ≡ self.old.answer.refused }
    {
        self.intake = Intake::new();
        self.waiting.clear();
        self.output.clear();
    }

    /// Prints the reply to the first action that waits, if there is one.
    fn answer_first(&mut self, verdict: Verdict, number: u64)
        ensures held { self.new.intake ≡ self.old.intake }
        ensures answer { self.new.answer ≡ self.old.answer }
        ensures none { self.old.waiting.items ≡ [] →
            (self.new.waiting.items ≡ []) × (self.new.output.left ≡ self.old.output.left) }
        ensures some { (first : Unanswered) (others : List Unanswered) →
            self.old.waiting.items ≡ first ∷ others → (self.new.waiting.items ≡ others) ×
            (self.new.output.left ≡ self.old.output.left ++ verdict_reply first.id number verdict) }
    {
        if self.waiting.is_empty() {
            return;
        }
        let id = self.waiting.remove(0).id;
        match verdict {
            Verdict::Accepted(_) => self.output.ok(id, number),
            Verdict::Refused(refusal, _) => self.output.no(id, refusal),
        }
    }

    /// Whether a receipt is of the first action that waits.
    fn is_awaited<T: Told>(&self, receipt: &Receipt<T>) -> bool
        ensures some { IsTrue result →
            (first : Unanswered) × ((others : List Unanswered) ×
            ((self.now.waiting.items ≡ first ∷ others) × IsReceiptOf first (heard_of receipt.now))) }
        ensures none { result ≡ false → (first : Unanswered) (others : List Unanswered) →
            self.now.waiting.items ≡ first ∷ others → ¬ (IsReceiptOf first (heard_of receipt.now)) }
    {
        match self.waiting.as_slice().first() {
            Some(first) => first.is_answered_by(receipt),
            None => false,
        }
    }

    /// Receives a receipt, if one is known to wait, and learns what it reports. If it is of the first action that waits it prints the
    /// reply.
    fn receive<T: Told + Drop, L: FreeLook<Told = T>>(
        &mut self,
        console: &mut Console<T>,
        look: &mut L,
    ) -> bool
        ensures base { L.Look.base look.new ≡ L.Look.base look.old }
        ensures end { SameConsole console.old console.new }
        ensures turn { IsTurnAtConsole no_looks (L.Look.base look.old) (if result then 1 else 0)
            self.old self.new (L.Look.knows look.old) (L.Look.knows look.new)
            console.old console.new }
        ensures quiet { result ≡ false → IsQuiet console.old }
        ensures one { result ≡ true →
            length (received_of console.new) ≡ length (received_of console.old) + 1 }
        ensures unseen { result ≡ false → look.new ≡ look.old }
        ensures left { result ≡ false → self.new.output ≡ self.old.output }
        ensures held { self.new.intake ≡ self.old.intake }
    {
        let Some(receipt) = console.receive() else {
            return false;
        };
        let is_awaited = self.is_awaited(&receipt);
        let number = receipt.number;
        let verdict = receipt.verdict;
        look.learn(receipt);
        if is_awaited {
            self.answer_first(verdict, number);
        }
        true
    }

    /// Sends the action of the line that is held.
    fn send<T: Told + Drop>(&mut self, id: u32, want: Want, console: &mut Console<T>) -> Turn
        requires line { self.old.intake.line ≡ Some (record { id = id; ask = ask.Act want }) }
        requires empty { self.old.output.used ≡ 0 }
        ensures end { SameConsole console.old console.new }
        ensures turn { (base : Condensed) (known : List Action) →
            IsTurnAtConsole no_looks base (least_of result) self.old self.new known known
            console.old console.new }
        ensures cases { (result ≡ turn.Went) ⊎
            ((result ≡ turn.Idle) × IsStuck self.new console.new) }
        ensures left { self.new.output ≡ self.old.output }
    {
        if self.waiting.is_full() {
            return Turn::Idle;
        }
        // for the proof: a copy, since the prover does not follow a value after it was moved
        let asked = want;
        let slot = console.slot().number();
        match console.send(asked) {
            Ok(serial) => {
                self.waiting.push(Unanswered {
                    id,
                    slot,
                    serial,
                    want,
                });
                self.intake.pass();
                Turn::Went
            }
            Err(Busy(_)) => Turn::Idle,
        }
    }

    /// Answers the query of the line that is held, if no action waits.
    fn ask<L: Recall>(&mut self, id: u32, query: Query, look: &mut L)
        requires line { self.old.intake.line ≡ Some (record { id = id; ask = ask.Look query }) }
        requires empty { (self.old.output.left ≡ []) × (self.old.output.used ≡ 0) }
        requires alone { self.old.waiting.items ≡ [] }
        ensures base { L.Look.base look.new ≡ L.Look.base look.old }
        ensures turn { IsTurnWithin (between L.Look.looked L.recalled look.old look.new)
            (L.Look.base look.old) 1 self.old self.new (L.Look.knows look.old)
            (L.Look.knows look.new) }
    {
        self.intake.pass();
        match look.look(query, &mut self.answer) {
            Ok(n) => {
                if !self.output.told(id, n, query, &self.answer) {
                    self.output.no(id, Refusal::OutOfMemory);
                }
            }
            Err(refusal) => self.output.no(id, refusal),
        }
    }

    /// Reports what happened after the number of the line that is held, if no action waits.
    fn recall<L: Recall>(&mut self, id: u32, after: Option<u64>, look: &mut L)
        requires line { self.old.intake.line ≡ Some (record { id = id; ask = ask.Recall after }) }
        requires empty { (self.old.output.left ≡ []) × (self.old.output.used ≡ 0) }
        requires alone { self.old.waiting.items ≡ [] }
        ensures base { L.Look.base look.new ≡ L.Look.base look.old }
        ensures turn { IsTurnWithin (between L.Look.looked L.recalled look.old look.new)
            (L.Look.base look.old) 1 self.old self.new (L.Look.knows look.old)
            (L.Look.knows look.new) }
    {
        self.intake.pass();
        match look.recall(after, &mut self.events) {
            Ok(told) => self.output.since(id, told, &self.events),
            Err(refusal) => self.output.no(id, refusal),
        }
    }

    /// Answers the bad line that is held, if no action waits.
    fn refuse(&mut self, id: u32, refusal: Refusal)
        requires line { self.old.intake.line ≡ Some (record { id = id; ask = ask.Bad refusal }) }
        requires empty { (self.old.output.left ≡ []) × (self.old.output.used ≡ 0) }
        requires alone { self.old.waiting.items ≡ [] }
        ensures answer { self.new.answer ≡ self.old.answer }
        ensures left { self.new.output.left ≡ no_text id refusal }
        ensures held { self.new.intake ≡ record self.old.intake { line = None } }
        ensures waiting { self.new.waiting.items ≡ [] }
    {
        self.intake.pass();
        self.output.no(id, refusal);
    }

    /// Takes the line that is held, if no byte is to be written.
    fn take<T: Told + Drop, L: FreeLook<Told = T> + Recall>(
        &mut self,
        line: Line,
        console: &mut Console<T>,
        look: &mut L,
    ) -> Turn
        requires line { self.old.intake.line ≡ Some line }
        requires empty { (self.old.output.left ≡ []) × (self.old.output.used ≡ 0) }
        ensures base { L.Look.base look.new ≡ L.Look.base look.old }
        ensures end { SameConsole console.old console.new }
        ensures turn { IsTurnAtConsole (between L.Look.looked L.Recall.recalled look.old look.new)
            (L.Look.base look.old) (least_of result) self.old self.new
            (L.Look.knows look.old) (L.Look.knows look.new) console.old console.new }
        ensures cases { (result ≡ turn.Went) ⊎
            ((result ≡ turn.Idle) × IsStuck self.new console.new × (self.new.output.left ≡ [])) }
    {
        let id = line.id;
        match line.ask {
            Ask::Act(want) => self.send(id, want, console),
            Ask::Look(query) => {
                if !self.waiting.is_empty() {
                    return Turn::Idle;
                }
                self.ask(id, query, look);
                Turn::Went
            }
            Ask::Recall(after) => {
                if !self.waiting.is_empty() {
                    return Turn::Idle;
                }
                self.recall(id, after, look);
                Turn::Went
            }
            Ask::Bad(refusal) => {
                if !self.waiting.is_empty() {
                    return Turn::Idle;
                }
                self.refuse(id, refusal);
                Turn::Went
            }
        }
    }

    /// Reads, if no line is held and no byte is to be written.
    fn read<W: Wire>(&mut self, wire: &mut W) -> Turn
        requires held { (self.old.intake.line ≡ None) × (self.old.intake.rest ≡ []) }
        requires empty { self.old.output.left ≡ [] }
        ensures turn { (base : Condensed) (known : List Action) (sent : List Want)
            (heard : List Heard) →
            IsTurn no_looks base (least_of result)
            (slot_state self.old known (W.input wire.old) (W.written wire.old) sent heard)
            (slot_state self.new known (W.input wire.new) (W.written wire.new) sent heard) }
        ensures answer { ReadTurns result self.old self.new (W.counts wire.old) (W.counts wire.new)
            (W.input wire.new).coming }
    {
        match self.intake.read(wire) {
            ReadGave::Got(_) => Turn::Went,
            ReadGave::End => {
                if self.waiting.is_empty() {
                    return Turn::Ended;
                }
                Turn::Idle
            }
            ReadGave::Blocked => Turn::Idle,
            ReadGave::Failed => Turn::Fault,
        }
    }

    /// Takes a line, or reads, if no byte is to be written.
    fn go_on<W: Wire, T: Told + Drop, L: FreeLook<Told = T> + Recall>(
        &mut self,
        wire: &mut W,
        console: &mut Console<T>,
        look: &mut L,
    ) -> Turn
        requires empty { (self.old.output.left ≡ []) × (self.old.output.used ≡ 0) }
        ensures base { L.Look.base look.new ≡ L.Look.base look.old }
        ensures end { SameConsole console.old console.new }
        ensures turn { IsTurn (between L.Look.looked L.Recall.recalled look.old look.new)
            (L.Look.base look.old) (least_of result)
            (side_over W.Wire self.old (L.Look.knows look.old) wire.old console.old)
            (side_over W.Wire self.new (L.Look.knows look.new) wire.new console.new) }
        ensures answer { GoOnTurns result self.new console.new (W.counts wire.old) (W.counts wire.new)
            (W.input wire.new).coming }
        ensures takes_first { 0 < length (lines_in self.old.intake) →
            W.input wire.new ≡ W.input wire.old }
    {
        match self.intake.line() {
            Some(line) => self.take(line, console, look),
            None => self.read(wire),
        }
    }

    /// One turn: what can be done without waiting.
    pub fn turn<W: Wire, T: Told + Drop, L: FreeLook<Told = T> + Recall>(
        &mut self,
        wire: &mut W,
        console: &mut Console<T>,
        look: &mut L,
    ) -> Turn
        ensures base { L.Look.base look.new ≡ L.Look.base look.old }
        ensures end { SameConsole console.old console.new }
        ensures turn { IsTurn (between L.Look.looked L.Recall.recalled look.old look.new)
            (L.Look.base look.old) (least_of result)
            (side_over W.Wire self.old (L.Look.knows look.old) wire.old console.old)
            (side_over W.Wire self.new (L.Look.knows look.new) wire.new console.new) }
        ensures answer { Turns result self.new console.old console.new (W.counts wire.old)
            (W.counts wire.new) (W.input wire.new).coming }
        // While a receipt is known to wait, a turn receives one and makes no call on the wire.
        ensures receives_first { 0 < length (coming_to console.old) →
            (result ≡ turn.Went) × (wire.new ≡ wire.old) ×
            (length (received_of console.new) ≡ length (received_of console.old) + 1) }
        // While a reply is still to be written no line is taken, and no byte is read;
        ensures writes_first { 0 < length self.old.output.left →
            (self.new.intake ≡ self.old.intake) × (W.input wire.new ≡ W.input wire.old) }
        // and no byte is read while a whole line is held.
        ensures takes_first { 0 < length (lines_in self.old.intake) →
            W.input wire.new ≡ W.input wire.old }
    {
        if self.receive(console, look) {
            return Turn::Went;
        }
        match self.output.write(wire) {
            Sent::Nothing => self.go_on(wire, console, look),
            Sent::Some => Turn::Went,
            Sent::Blocked => Turn::Idle,
            Sent::Failed => Turn::Fault,
        }
    }
}
