//! The state between two tokens.

ghost use Rattle.std.specs.Prelude.{◌≡◌, ◌<◌, ◌≤◌, ◌≢◌, Bool, true, length, None, Ok, Err, OnOk, IfOk, IfErr};
ghost use Rattle.cv_model.specs.Positions.{IsCoordinate};
ghost use Rattle.cv_wkt.specs.Reader.{State, start, IsState, Stepped, opened, left_out, with_x, with_y};
ghost use Rattle.cv_wkt.specs.Reader.{behind_item, stepped};
ghost use Rattle.cv_wkt.specs.Kind.{IsKindInRange};
ghost use Rattle.cv_wkt.specs.Short.{IsAtPoint, with_pair, PointsAlong};
ghost use Rattle.cv_wkt.specs.Refusals.{limit_of, if_deep, if_full, taken, finished};

use crate::kind::{Kind, Word};
use crate::pieces::Pieces;
use crate::place::{Cause, Frame, Now, Sort};
use crate::short::first_pair;
use crate::stack::Stack;
use cv_decimal::Fixed;
use cv_model::{Geometry, NoMemory, Point, WktError};
use std::alloc::Global;
use std::marker::Model;

/// What comes next, the open lists, an x that waits for its y, how many vertices there are, and what has been
/// read.
#[derive(Drop)]
pub struct Reader {
    next: Now,
    frames: Stack,
    x: i64,
    vertices: u64,
    pieces: Pieces,
}

impl Model for Reader {
    ghost use Rattle.cv_wkt.specs.Reader.{State, IsState};

    ghost Value = { State };

    ghost view = { λ r. record {
      now = r.next;
      frames = r.frames;
      x = r.x;
      vertices = r.vertices;
      parts = r.pieces;
    } };

    ghost invariant = { λ r. IsState (record {
      now = r.next;
      frames = r.frames;
      x = r.x;
      vertices = r.vertices;
      parts = r.pieces;
    }) };
}

impl Reader {
    /// Before the first token.
    pub fn new(alloc: Global) -> Reader
        ensures { result ≡ start }
    {
        Reader {
            next: Now::Start,
            frames: Stack::new(alloc),
            x: 0,
            vertices: 0,
            pieces: Pieces::new(alloc),
        }
    }

    fn go(&mut self, next: Now)
        ensures { self.new ≡ record self.old { now = next } }
    {
        self.next = next;
    }

    /// At `(`.
    fn open(&mut self, frame: Frame) -> Result<(), NoMemory>
        ensures { OnOk result (self.new ≡ opened frame self.old) }
    {
        self.frames.push(frame)?;
        self.next = Now::Begin(frame.item());
        Ok(())
    }

    /// At EMPTY in place of a list.
    fn leave_out(&mut self, alloc: Global, frame: Frame) -> Result<(), NoMemory>
        ensures { OnOk result (self.new ≡ left_out frame self.old) }
    {
        self.pieces.leave_out(alloc, frame)?;
        self.next = Now::Behind(0);
        Ok(())
    }

    fn set_x(&mut self, x: i64)
        requires { IsCoordinate x }
        ensures { self.new ≡ with_x x self.old }
    {
        self.x = x;
        self.next = Now::BehindX;
    }

    fn set_y(&mut self, alloc: Global, y: i64) -> Result<(), NoMemory>
        requires range { IsCoordinate y }
        requires few { self.old.vertices < 1000000 }
        ensures { OnOk result (self.new ≡ with_y y self.old) }
    {
        let frame = match self.frames.top() {
            Some(frame) => frame,
            None => Frame::Geometries,
        };
        self.pieces.add(alloc, frame, Point { x: self.x, y })?;
        self.vertices += 1;
        self.next = Now::Behind(2);
        Ok(())
    }

    /// A comma behind an item.
    #[tactic(auto, using(crate::proofs::StepLemmas::comma_is, crate::proofs::StepLemmas::no_comma))]
    fn separate(&mut self) -> bool
        ensures { Stepped result (behind_item self.old.frames Kind.Comma self.old) self.new }
    {
        match self.frames.top() {
            Some(frame) => {
                let repeats = frame.repeats();
                if repeats {
                    self.next = Now::Begin(frame.item());
                }
                repeats
            }
            None => false,
        }
    }

    /// A `)` behind an item.
    fn close(&mut self, alloc: Global) -> Result<bool, NoMemory>
        ensures { IfOk result (λ b. Stepped b (behind_item self.old.frames Kind.Close self.old) self.new) }
    {
        match self.frames.pop() {
            Some(frame) => {
                self.pieces.close(alloc, frame)?;
                self.next = Now::Behind(0);
                Ok(true)
            }
            None => Ok(false),
        }
    }

    /// Where a geometry's word is expected.
    fn at_name(&mut self, kind: Kind) -> bool
        ensures { Stepped result (stepped (Now.Begin Sort.Geometry) kind self.old) self.new }
    {
        match kind {
            Kind::Name(word, joined) => self.go(word.behind(joined)),
            _ => return false,
        }
        true
    }

    fn at_start(&mut self, kind: Kind) -> bool
        ensures { Stepped result (stepped Now.Start kind self.old) self.new }
    {
        match kind {
            Kind::Srid => self.go(Now::BehindSrid),
            Kind::Name(word, joined) => self.go(word.behind(joined)),
            _ => return false,
        }
        true
    }

    /// Where EMPTY or a list is expected.
    fn at_group(&mut self, alloc: Global, frame: Frame, kind: Kind) -> Result<bool, NoMemory>
        ensures { IfOk result (λ b.
            Stepped b (stepped (Now.Begin (Sort.Group frame)) kind self.old) self.new) }
    {
        match kind {
            Kind::Empty => self.leave_out(alloc, frame)?,
            Kind::Open => self.open(frame)?,
            _ => return Ok(false),
        }
        Ok(true)
    }

    /// Behind a word without a tag.
    fn at_word(&mut self, alloc: Global, frame: Frame, kind: Kind) -> Result<bool, NoMemory>
        ensures { IfOk result (λ b. Stepped b (stepped (Now.BehindWord frame) kind self.old) self.new) }
    {
        match kind {
            Kind::Tag => self.go(Now::Begin(Sort::Group(frame))),
            Kind::Empty => self.leave_out(alloc, frame)?,
            Kind::Open => self.open(frame)?,
            _ => return Ok(false),
        }
        Ok(true)
    }

    /// Where a point is expected.
    fn at_ordinates(&mut self, kind: Kind) -> bool
        requires { IsKindInRange kind }
        ensures { Stepped result (stepped (Now.Begin Sort.Ordinates) kind self.old) self.new }
    {
        match kind {
            Kind::Number(Fixed::Value(x), _) => self.set_x(x),
            _ => return false,
        }
        true
    }

    /// Where a member is expected.
    fn at_member(&mut self, kind: Kind) -> Result<bool, NoMemory>
        requires { IsKindInRange kind }
        ensures { IfOk result (λ b. Stepped b (stepped (Now.Begin Sort.Member) kind self.old) self.new) }
    {
        match kind {
            Kind::Empty => self.go(Now::Behind(0)),
            Kind::Open => self.open(Frame::OneMember)?,
            Kind::Number(Fixed::Value(x), _) => self.set_x(x),
            _ => return Ok(false),
        }
        Ok(true)
    }

    /// Where a y is expected.
    #[tactic(auto, using(crate::proofs::StepLemmas::is_room))]
    fn at_y(&mut self, alloc: Global, kind: Kind) -> Result<bool, NoMemory>
        requires range { IsKindInRange kind }
        requires few { limit_of Now.BehindX self.old.frames self.old.vertices kind ≡ None }
        ensures { IfOk result (λ b. Stepped b (stepped Now.BehindX kind self.old) self.new) }
    {
        match kind {
            Kind::Number(Fixed::Value(y), _) => self.set_y(alloc, y)?,
            _ => return Ok(false),
        }
        Ok(true)
    }

    /// Behind an item, with so many ordinates as may still come.
    #[tactic(auto, using(crate::proofs::StepLemmas::item_steps))]
    fn behind_item(&mut self, alloc: Global, ordinates: u8, kind: Kind) -> Result<bool, NoMemory>
        ensures { IfOk result (λ b. Stepped b (stepped (Now.Behind ordinates) kind self.old) self.new) }
    {
        match kind {
            Kind::Comma => Ok(self.separate()),
            Kind::Close => self.close(alloc),
            Kind::Number(_, _) => {
                if ordinates == 0 {
                    return Ok(false);
                }
                self.go(Now::Behind(ordinates - 1));
                Ok(true)
            }
            _ => Ok(false),
        }
    }

    /// In an SRID.
    fn at_equals(&mut self, kind: Kind) -> bool
        ensures { Stepped result (stepped Now.BehindSrid kind self.old) self.new }
    {
        match kind {
            Kind::Equals => self.go(Now::BehindEquals),
            _ => return false,
        }
        true
    }

    fn at_digits(&mut self, kind: Kind) -> bool
        ensures { Stepped result (stepped Now.BehindEquals kind self.old) self.new }
    {
        match kind {
            Kind::Number(_, true) => self.go(Now::BehindDigits),
            _ => return false,
        }
        true
    }

    fn at_semicolon(&mut self, kind: Kind) -> bool
        ensures { Stepped result (stepped Now.BehindDigits kind self.old) self.new }
    {
        match kind {
            Kind::Semicolon => self.go(Now::Begin(Sort::Geometry)),
            _ => return false,
        }
        true
    }

    /// The state behind a token, where it can stand.
    fn step(&mut self, alloc: Global, kind: Kind) -> Result<bool, NoMemory>
        requires range { IsKindInRange kind }
        requires few { limit_of self.old.now self.old.frames self.old.vertices kind ≡ None }
        ensures { IfOk result (λ b. Stepped b (stepped self.old.now kind self.old) self.new) }
    {
        match self.next {
            Now::Start => Ok(self.at_start(kind)),
            Now::BehindSrid => Ok(self.at_equals(kind)),
            Now::BehindEquals => Ok(self.at_digits(kind)),
            Now::BehindDigits => Ok(self.at_semicolon(kind)),
            Now::Begin(Sort::Geometry) => Ok(self.at_name(kind)),
            Now::Begin(Sort::Group(frame)) => self.at_group(alloc, frame, kind),
            Now::Begin(Sort::Ordinates) => Ok(self.at_ordinates(kind)),
            Now::Begin(Sort::Member) => self.at_member(kind),
            Now::BehindWord(frame) => self.at_word(alloc, frame, kind),
            Now::BehindX => self.at_y(alloc, kind),
            Now::Behind(ordinates) => self.behind_item(alloc, ordinates, kind),
        }
    }

    /// The limit that a token which can stand meets.
    fn limit(&self, kind: Kind) -> Option<Cause>
        ensures { result ≡ limit_of self.now.now self.now.frames self.now.vertices kind }
    {
        match self.next {
            Now::Start | Now::Begin(Sort::Geometry) => self.deep(kind),
            Now::BehindX => self.full(kind),
            _ => None,
        }
    }

    fn deep(&self, kind: Kind) -> Option<Cause>
        ensures { result ≡ if_deep self.now.frames kind }
    {
        match kind {
            Kind::Name(Word::Collection, _) => {
                (self.frames.collections() >= 8).then_some(Cause::Deep)
            }
            _ => None,
        }
    }

    fn full(&self, kind: Kind) -> Option<Cause>
        ensures { result ≡ if_full self.now.vertices kind }
    {
        match kind {
            Kind::Number(Fixed::Value(_), _) => {
                (self.vertices >= 1_000_000).then_some(Cause::Full)
            }
            _ => None,
        }
    }

    /// Takes a token, which stands at an offset. After an error the reader is of no more use.
    #[tactic(auto, using(crate::proofs::StepLemmas::taken_steps))]
    pub fn take(&mut self, alloc: Global, kind: Kind, at: u64) -> Result<(), WktError>
        requires { IsKindInRange kind }
        ensures ok { OnOk result (taken self.old kind at ≡ Ok self.new) }
        ensures err { IfErr result (λ e. (e ≢ WktError.NoMemory) → taken self.old kind at ≡ Err e) }
    {
        if let Some(limit) = self.limit(kind) {
            return Err(limit.at(at));
        }
        let before = self.next;
        match self.step(alloc, kind) {
            Ok(true) => Ok(()),
            Ok(false) => Err(before.cause(kind).at(at)),
            Err(_) => Err(WktError::NoMemory),
        }
    }

    /// Whether the next point of a line or a ring is expected.
    fn is_at_point(&self) -> bool
        ensures { result ≡ true → IsAtPoint self.now }
    {
        match self.next {
            Now::Begin(Sort::Ordinates) => matches!(
                self.frames.top(),
                Some(Frame::LinePoints) | Some(Frame::RingPoints)
            ),
            _ => false,
        }
    }

    /// Takes a point of a line or a ring, and the comma behind it.
    fn put_pair(&mut self, alloc: Global, x: i64, y: i64) -> Result<(), NoMemory>
        requires x_in { IsCoordinate x }
        requires y_in { IsCoordinate y }
        requires few { self.old.vertices < 1000000 }
        ensures { OnOk result (self.new ≡ with_pair x y self.old) }
    {
        self.pieces.add(alloc, Frame::LinePoints, Point { x, y })?;
        self.x = x;
        self.vertices += 1;
        Ok(())
    }

    /// Takes the last point of a line or a ring, up to the `)` behind it.
    fn put_last(&mut self, alloc: Global, x: i64, y: i64) -> Result<(), NoMemory>
        requires x_in { IsCoordinate x }
        requires y_in { IsCoordinate y }
        requires few { self.old.vertices < 1000000 }
        ensures { OnOk result (self.new ≡ with_y y (with_x x self.old)) }
    {
        self.set_x(x);
        self.set_y(alloc, y)
    }

    /// Takes the points of a line or a ring from an offset on, as far as they are written as most are.
    /// Answers where it stopped.
    pub fn take_points(
        &mut self,
        alloc: Global,
        text: &[u8],
        start: usize,
    ) -> Result<usize, NoMemory>
        requires { start ≤ length text.now }
        ensures { IfOk result (λ at. PointsAlong text.now start self.old at self.new) }
    {
        if !self.is_at_point() {
            return Ok(start);
        }
        let mut at = start;
        while self.vertices < 1_000_000 {
            match first_pair(text.split_at(at).1) {
                Some(pair) => {
                    if pair.is_last {
                        self.put_last(alloc, pair.x, pair.y)?;
                        return Ok(at + pair.len);
                    }
                    self.put_pair(alloc, pair.x, pair.y)?;
                    at += pair.len;
                }
                None => return Ok(at),
            }
        }
        Ok(at)
    }

    /// The answer where the text ends.
    #[tactic(auto, using(crate::proofs::StepLemmas::end_steps))]
    pub fn finish(self, end: u64) -> Result<Geometry, WktError>
        ensures { result ≡ finished end self }
    {
        match self.frames.top() {
            Some(_) => Err(WktError::Syntax(end)),
            None => match self.next {
                Now::Behind(_) => Ok(self.pieces.finish()),
                _ => Err(WktError::Syntax(end)),
            },
        }
    }
}
