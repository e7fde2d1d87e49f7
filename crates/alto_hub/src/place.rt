//! The rule of what is published, and of what each place has seen of it.
ghost use Rattle.std.specs.Prelude.{◌≡◌, ◌⊎◌, drop, MatchResult, IfOk, OnErr};
ghost use Rattle.std.specs.Arc.{arc_value};
ghost use mathlib.Core.List.{IsPrefix};
ghost use Rattle.left_right.specs.Sides.{view};
ghost use Rattle.alto_versions.specs.Front.{StandsFor};
ghost use Rattle.alto_hub.specs.History.{IsLog, book_at};
ghost use Rattle.alto_hub.specs.Seen.{AreKept, newcomer, Sees, after_look, after_entry, after_lesson};
ghost use Rattle.alto_hub.specs.Versions.{IsShown, last_shown, log_of, shown_of};

use crate::mark::{Mark, Naming, stop};
use crate::published::Published;
use crate::view::View;
use alto_desk::Front;
use core::mem::replace_with;
use crossbeam_utils::rule::{Outcome, Protocol};
use left_right::reader::Reader;
use left_right::writer::Writer;
use row_chunks::Chunks;
use std::alloc::AllocError;
use std::marker::{Model, PhantomData};
use std::sync::{Arc, Wait};

/// What is published stands for a book of the history J, and what every place has seen led to that book.
pub struct Looking<J> {
    of: PhantomData<J>,
}

impl<J: Naming> Protocol<Published, View> for Looking<J> {
    ghost holds = { λ shown views. IsShown J.name J.opening (shown_of shown) × AreKept (log_of shown) views };

    ghost first = { newcomer };
}

/// A place looks.
pub struct Look<J> {
    of: PhantomData<J>,
}

impl<J: Naming> Outcome<Published, View> for Look<J> {
    ghost then = { λ before _ shown after. IsShown J.name J.opening (shown_of shown)
        × Sees J.opening (after_look J.opening) before (log_of shown) after };
}

/// A place enters, to have an import accepted.
pub struct Entry<J> {
    of: PhantomData<J>,
}

impl<J: Naming> Outcome<Published, View> for Entry<J> {
    ghost then = { λ before _ shown after. IsShown J.name J.opening (shown_of shown)
        × Sees J.opening after_entry before (log_of shown) after };
}

/// A place learns what became of its import.
pub struct Lesson<J> {
    of: PhantomData<J>,
}

impl<J: Naming> Outcome<Published, View> for Lesson<J> {
    ghost then = { λ before _ shown after. IsShown J.name J.opening (shown_of shown)
        × Sees J.opening after_lesson before (log_of shown) after };
}

/// A publish leaves what the writer has seen.
pub struct Publish<J> {
    of: PhantomData<J>,
}

impl<J: Naming> Outcome<Published, View> for Publish<J> {
    ghost then = { λ before _ _ after. after ≡ before };
}

/// Reads what is published.
pub type Eye<J> = Reader<Published, View, Looking<J>>;

/// Publishes.
pub type Pen<J> = Writer<Published, Published, View, Looking<J>>;

/// A place at a hub, for one seat. Contracts see what it knows.
#[derive(Drop)]
pub struct Place<J: Naming> {
    eye: Eye<J>,
}

impl<J: Naming> Model for Place<J> {
    ghost use Rattle.left_right.specs.Sides.{view as view_of};
    ghost use Rattle.alto_hub.specs.History.{IsLog};
    ghost use Rattle.alto_hub.specs.declared.view.View.{View};

    ghost Value = { View };

    ghost view = { λ place. view_of place.eye.place };

    ghost invariant = { λ place. IsLog J.opening (view_of place.eye.place).seen };
}

impl<J: Naming> Place<J> {
    /// A place of which nothing was seen that isn't of the history.
    pub(crate) fn new(eye: Eye<J>) -> Place<J>
        requires { IsLog J.opening (view eye.place).seen }
        ensures { result ≡ view eye.place }
    {
        Place { eye }
    }

    /// What reads for it. What it has seen is of the history.
    pub(crate) fn eye(&self) -> &Eye<J>
        ensures { IsLog J.opening self.now.seen }
    {
        &self.eye
    }

    /// Looks at the published version, with no lock and no wait.
    pub(crate) fn look(&mut self) -> Result<Arc<Front<Chunks>>, AllocError>
        ensures stands { IfOk result (λ front. StandsFor (arc_value front) (book_at J.opening self.new.seen)) }
        ensures looked { IfOk result (λ _. Sees J.opening (after_look J.opening) self.old self.new.seen self.new) }
        ensures lost { OnErr result ((self.new ≡ self.old)
            ⊎ Sees J.opening (after_look J.opening) self.old self.new.seen self.new) }
    {
        replace_with(&mut self.eye, (), |eye, _| look_by(eye))
    }

    /// Enters where this mark's version is published. Where another is, it waits for good.
    pub(crate) fn enter<R: Wait>(&mut self, rt: &R, mark: &Mark) -> Result<(), AllocError>
        requires { mark.now.name ≡ J.name }
        ensures { MatchResult result
            (λ _. Sees J.opening after_entry self.old mark.now.log self.new)
            (λ _. self.new ≡ self.old) }
    {
        replace_with(&mut self.eye, (rt, mark), enter_by)
    }

    /// Learns that this mark's version is published. Where another is, it waits for good.
    pub(crate) fn learn<R: Wait>(&mut self, rt: &R, mark: &Mark) -> Result<(), AllocError>
        requires { mark.now.name ≡ J.name }
        ensures { MatchResult result
            (λ _. Sees J.opening after_lesson self.old mark.now.log self.new)
            (λ _. self.new ≡ self.old) }
    {
        replace_with(&mut self.eye, (rt, mark), learn_by)
    }
}

// Looks.
fn look_by<J: Naming>(eye: Eye<J>) -> (Eye<J>, Result<Arc<Front<Chunks>>, AllocError>)
    ensures stands { IfOk result.1 (λ front.
        StandsFor (arc_value front) (book_at J.opening (view result.0.place).seen)) }
    ensures looked { IfOk result.1 (λ _. Sees J.opening (after_look J.opening)
        (view eye.place) (view result.0.place).seen (view result.0.place)) }
    ensures lost { OnErr result.1 ((view result.0.place ≡ view eye.place)
        ⊎ Sees J.opening (after_look J.opening)
        (view eye.place) (view result.0.place).seen (view result.0.place)) }
{
    match eye.enter_as::<Look<J>>() {
        Ok(reading) => {
            let front = Arc::try_clone(&reading.get().front);
            (reading.leave(), front)
        }
        Err(eye) => (eye, Err(AllocError)),
    }
}

// Enters where this mark's version is published.
fn enter_by<J: Naming, R: Wait>(eye: Eye<J>, at: (&R, &Mark)) -> (Eye<J>, Result<(), AllocError>)
    requires { at.1.now.name ≡ J.name }
    ensures { MatchResult result.1
        (λ _. Sees J.opening after_entry (view eye.place) at.entry.1.now.log (view result.0.place))
        (λ _. view result.0.place ≡ view eye.place) }
{
    let (rt, mark) = at;
    match eye.enter_as::<Entry<J>>() {
        Ok(reading) => {
            if !reading.get().mark.is(mark) {
                stop(rt);
            }
            (reading.leave(), Ok(()))
        }
        Err(eye) => (eye, Err(AllocError)),
    }
}

// Learns that this mark's version is published.
fn learn_by<J: Naming, R: Wait>(eye: Eye<J>, at: (&R, &Mark)) -> (Eye<J>, Result<(), AllocError>)
    requires { at.1.now.name ≡ J.name }
    ensures { MatchResult result.1
        (λ _. Sees J.opening after_lesson (view eye.place) at.entry.1.now.log (view result.0.place))
        (λ _. view result.0.place ≡ view eye.place) }
{
    let (rt, mark) = at;
    match eye.enter_as::<Lesson<J>>() {
        Ok(reading) => {
            if !reading.get().mark.is(mark) {
                stop(rt);
            }
            (reading.leave(), Ok(()))
        }
        Err(eye) => (eye, Err(AllocError)),
    }
}

/// Publishes a version whose history goes on from the published one's. At `Err` readers see what they saw.
pub(crate) fn show<J: Naming, R: Wait>(
    rt: &R,
    pen: &mut Pen<J>,
    published: Published,
) -> Result<(), AllocError>
    requires stands { IsShown J.name J.opening (shown_of published) }
    requires begins { IsPrefix (log_of pen.old.desk.shown.value) (log_of published) }
    ensures { MatchResult result
        (λ _. shown_of pen.new.desk.shown.value ≡ shown_of published)
        (λ _. shown_of pen.new.desk.shown.value ≡ shown_of pen.old.desk.shown.value) }
{
    if pen.append(published).is_err() {
        return Err(AllocError);
    }
    replace_with(pen, rt, turn)
}

// Publishes what is pending.
fn turn<J: Naming, R: Wait>(pen: Pen<J>, rt: &R) -> (Pen<J>, Result<(), AllocError>)
    requires stands { IsShown J.name J.opening
        (last_shown (shown_of pen.desk.shown.value) (drop pen.behind pen.log.items)) }
    requires begins { IsPrefix (log_of pen.desk.shown.value)
        (last_shown (shown_of pen.desk.shown.value) (drop pen.behind pen.log.items)).1.log }
    ensures { MatchResult result.1
        (λ _. shown_of result.0.desk.shown.value
        ≡ last_shown (shown_of pen.desk.shown.value) (drop pen.behind pen.log.items))
        (λ _. result.0.desk.shown.value ≡ pen.desk.shown.value) }
{
    pen.publish_as::<Publish<J>, R>(rt)
}
