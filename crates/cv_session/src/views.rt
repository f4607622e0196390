//! The commands of a script that give a canvas a view.

ghost use Rattle.std.specs.Prelude.{◌≡◌, [], IfOk, OnOk};
ghost use Rattle.cv_event.specs.declared.entry.Act.TheVariants as act;
ghost use Rattle.cv_geom.specs.Views.{IsZoomPart};
ghost use Rattle.cv_script.specs.declared.script.Command.TheVariants as command;
ghost use Rattle.cv_session.specs.Seats.{now, IsOfSize, Enters, Shows, Obeys};

use crate::seat::Session;
use cv_desk::SetViewError;
use cv_event::Reason;
use cv_geom::{ViewError, pan, view_of, zoom};
use cv_model::{Extent, NoMemory, View};

impl Session {
    /// Gives a canvas a view of its size.
    pub(crate) fn show_view(&mut self, canvas: u32, view: View) -> Result<(), NoMemory>
        requires { IsOfSize (now self.old) canvas view }
        ensures { OnOk result (Enters self.old self.new (act.View canvas view)) }
    {
        match self.set_view(canvas, view) {
            Ok(()) => Ok(()),
            Err(SetViewError::NoMemory) => Err(std::alloc::AllocError),
            Err(SetViewError::UnknownCanvas) => unreachable!(),
            Err(SetViewError::Size) => unreachable!(),
        }
    }

    /// Gives a canvas a view that was made, or refuses the command by why it wasn't.
    fn show(
        &mut self,
        line: u32,
        canvas: u32,
        made: Result<View, ViewError>,
    ) -> Result<(), NoMemory>
        requires { IfOk made (IsOfSize (now self.old) canvas) }
        ensures { OnOk result (Shows self.old self.new line canvas made) }
    {
        match made {
            Ok(view) => self.show_view(canvas, view),
            Err(ViewError::Empty) => self.refuse(line, Reason::Empty),
            Err(ViewError::Range) => self.refuse(line, Reason::Range),
            Err(ViewError::Size) => self.refuse(line, Reason::Range),
        }
    }

    /// Plays `view`.
    pub(crate) fn play_view(
        &mut self,
        line: u32,
        canvas: u32,
        extent: Extent,
    ) -> Result<(), NoMemory>
        ensures { OnOk result (Obeys self.old self.new line (command.View canvas extent) []) }
    {
        match self.spec(canvas) {
            Some(spec) => {
                let made = view_of(extent, spec.w, spec.h);
                self.show(line, canvas, made)
            }
            None => self.refuse(line, Reason::UnknownCanvas),
        }
    }

    /// Plays `pan`.
    pub(crate) fn play_pan(
        &mut self,
        line: u32,
        canvas: u32,
        dx: i32,
        dy: i32,
    ) -> Result<(), NoMemory>
        ensures { OnOk result (Obeys self.old self.new line (command.Pan canvas dx dy) []) }
    {
        match self.placed(canvas) {
            Ok(view) => {
                let made = pan(&view, dx, dy);
                self.show(line, canvas, made)
            }
            Err(reason) => self.refuse(line, reason),
        }
    }

    /// Plays `zoom`.
    pub(crate) fn play_zoom(
        &mut self,
        line: u32,
        canvas: u32,
        num: u32,
        den: u32,
    ) -> Result<(), NoMemory>
        requires num_in { IsZoomPart num }
        requires den_in { IsZoomPart den }
        ensures { OnOk result (Obeys self.old self.new line (command.Zoom canvas num den) []) }
    {
        match self.placed(canvas) {
            Ok(view) => {
                let made = zoom(&view, num, den);
                self.show(line, canvas, made)
            }
            Err(reason) => self.refuse(line, reason),
        }
    }
}
