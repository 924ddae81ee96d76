//! Seats that answer the requests of sessions.

ghost use Rattle.std.specs.Prelude.{◌≡◌, true, None};
ghost use Rattle.std.specs.Arc.{arc_value};
ghost use Rattle.gk_terms.specs.Text.{lines_of};
ghost use Rattle.rulings.specs.Events.{event_meant, put_in_force, Reloading};
ghost use Rattle.rulings.specs.State.{opening_of};
ghost use Rattle.gk_protocol.specs.Answering.{are_workers};
ghost use Rattle.gk_protocol.specs.Demands.{asked_event, ATrial};
ghost use Rattle.live_desk.specs.Seats.{Looks};
ghost use Rattle.seat_sessions.specs.SeatAnswers as Spec;

use admission::{KeptReply, LentEvent, ReplyTaker, reply_in};
use compiler::Tables;
use gk_protocol::{
    Answer, Answerer, NoTables, OwnedLines, ReplyLine, Request, reload_without_memory, tables_of,
    trial_answer, trial_tables, trial_without_memory,
};
use live_desk::{Desk, House, Seat};
use std::alloc::Global;
use std::marker::Model;
use std::sync::{Arc, Wait};
use std::thread::Threads;

/// A seat of a desk, and the threads by which it tries other configurations. A contract sees the
/// seat.
#[derive(Drop)]
pub struct Sitting<'d, J: House, R> {
    seat: Seat<J>,
    desk: &'d Desk<J>,
    rt: &'d R,
}

impl<'d, J: House, R> Model for Sitting<'d, J, R> {
    ghost use Rattle.live_desk.specs.Seats.{SeatParts};

    ghost Value = { SeatParts };

    ghost view = { λ s. s.seat };
}

impl<'d, J: House, R> Sitting<'d, J, R> {
    /// This seat, with its desk and the threads of this handle.
    pub fn new(seat: Seat<J>, desk: &'d Desk<J>, rt: &'d R) -> Sitting<'d, J, R>
        ensures { result ≡ seat }
    {
        Sitting { seat, desk, rt }
    }

    /// The seat by itself.
    pub fn into_seat(self) -> Seat<J>
        ensures { result ≡ self.entry }
    {
        self.seat
    }
}

impl<J: House, R: Threads + Wait> Sitting<'_, J, R> {
    /// The desk's reply to an event that is lent, and is not a reload, as the line of the answer to
    /// the request of this number. It is made after the lock was let go.
    fn reply_into(&mut self, sequence: u32, event: &LentEvent<'_>, reply: &mut ReplyLine)
        requires { put_in_force (event_meant event.now) ≡ None }
        ensures { Spec.RepliesInto (opening_of J.begun J.limits) self.old sequence
            (event_meant event.now) reply.new.text self.new }
    {
        let mut kept = KeptReply::none();
        let _number = self.seat.ask_lent(self.rt, self.desk, event, &mut kept);
        reply.repeat(sequence);
        reply.take_reply(&kept.reply());
    }

    /// The desk's reply to a reload to these tables, as the answer to the request of this number.
    fn put_in_force(&mut self, sequence: u32, tables: Arc<Tables>) -> Answer
        ensures { Spec.Replies (opening_of J.begun J.limits) self.old sequence
            (Reloading (arc_value tables).commands) result self.new }
    {
        let asked = self.seat.put_in_force(self.rt, self.desk, tables);
        let reply = reply_in(&asked);
        Answer::Reply { sequence, reply }
    }

    /// Answers `CFG`: reads the lines, compiles them and puts them in force, whole. The lines are
    /// read and compiled before the lock is taken.
    fn reload(&mut self, alloc: Global, sequence: u32, lines: &mut OwnedLines) -> Answer
        ensures { Spec.MayReload (opening_of J.begun J.limits) self.old sequence
            (lines_of lines.old) result self.new }
    {
        match tables_of(alloc, lines) {
            Ok(tables) => self.put_in_force(sequence, tables),
            Err(NoTables::Faulty(fault)) => Answer::Misconfigured { sequence, fault },
            Err(NoTables::NoMemory) => reload_without_memory(sequence),
        }
    }

    /// Answers `TRY`: reads the lines, compiles them, and tries the desk's record on them, by so
    /// many workers. The lock is held while the last receipt is looked for, the endpoints are
    /// copied and the entries shared, and not before or after.
    fn tried(
        &mut self,
        alloc: Global,
        sequence: u32,
        workers: u32,
        lines: &mut OwnedLines,
    ) -> Answer
        ensures tried { Spec.MayTry (opening_of J.begun J.limits) self.old self.new sequence
            workers (lines_of lines.old) result }
        ensures looks { Spec.LooksFor (opening_of J.begun J.limits)
            (ATrial workers (lines_of lines.old)) self.old self.new }
    {
        match trial_tables(alloc, workers, lines) {
            Ok(tables) => self.tried_under(alloc, sequence, workers, &tables),
            Err(reason) => Answer::TryRefused { sequence, reason },
        }
    }

    /// Tries the desk's record under these tables.
    fn tried_under(&mut self, alloc: Global, sequence: u32, workers: u32, tables: &Tables) -> Answer
        requires { are_workers workers ≡ true }
        ensures tried { Spec.TriesFor (opening_of J.begun J.limits) self.old self.new sequence
            tables.now result }
        ensures looks { Looks (opening_of J.begun J.limits) self.old self.new }
    {
        match self.seat.snapshot(self.rt, alloc, self.desk) {
            Ok(snapshot) => { trial_answer(self.rt, alloc, sequence, workers, &snapshot, tables) }
            Err(_) => trial_without_memory(sequence),
        }
    }

    /// Answers a request whose lines say what it asks for.
    fn answer_lines(&mut self, alloc: Global, request: &mut Request) -> Answer
        requires { asked_event request.old ≡ None }
        ensures { Spec.MayAnswer (opening_of J.begun J.limits) self.old request.old result
            self.new }
    {
        match request {
            Request::Reload { sequence, lines } => self.reload(alloc, *sequence, lines),
            Request::Try {
                sequence,
                workers,
                lines,
            } => self.tried(alloc, *sequence, *workers, lines),
            _ => unreachable!(),
        }
    }
}

impl<J: House, R: Threads + Wait> Answerer for Sitting<'_, J, R> {
    ghost use Rattle.rulings.specs.State.{opening_of};
    ghost use Rattle.seat_sessions.specs.SeatAnswers.{MayAnswer};

    ghost may_answer = { MayAnswer (opening_of J.begun J.limits) };

    fn answer_into(&mut self, alloc: Global, mut request: Request, reply: &mut ReplyLine) {
        if let Some(event) = &request.event() {
            self.reply_into(request.sequence(), event, reply);
            return;
        }
        reply.show(self.answer_lines(alloc, &mut request));
    }
}
