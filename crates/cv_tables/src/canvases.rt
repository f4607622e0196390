//! The canvases of a desk.

ghost use Rattle.std.specs.Prelude.{◌≡◌, map, slice_get, OnOk, OnErr, IfOk, IfErr};
ghost use Rattle.std.specs.Option.{option_copied};
ghost use Rattle.cv_event.specs.States.{change_at};
ghost use Rattle.cv_layer.specs.Stamps.{stamp_list};
ghost use Rattle.cv_tables.specs.Rows.{whole_of};
ghost use Rattle.cv_tables.specs.Tabs.{new_tab, tab_viewed, tab_edited, tab_stored, tab_publishes, TabLooked};

use crate::canvas::CanvasRow;
use crate::row::JobRow;
use cv_chunks::Shared;
use cv_compose::Composed;
use cv_layer::{NoMemory, PaintedLayer, Stamps};
use cv_model::{CanvasSpec, Edit, View};
use std::alloc::Global;
use std::marker::Model;

/// The canvases of a desk, seen as their list, numbered from 0.
#[derive(Drop)]
pub struct CanvasTable {
    rows: Vec<CanvasRow>,
}

impl Model for CanvasTable {
    ghost use Rattle.std.specs.Prelude.{List};
    ghost use Rattle.cv_tables.specs.Tabs.{Tab};

    ghost Value = { List Tab };

    ghost view = { λ t. t.rows.items };
}

impl CanvasTable {
    /// Canvases of these sizes and capacities, which show nothing yet.
    pub fn open(alloc: Global, specs: &[CanvasSpec]) -> Result<CanvasTable, NoMemory>
        ensures { IfOk result (λ made. made ≡ map new_tab specs.now) }
    {
        let mut rows = Vec::with_capacity(alloc, specs.len())?;
        for spec in specs {
            rows.push(CanvasRow::new(alloc, *spec)?)?;
        }
        Ok(CanvasTable { rows })
    }

    /// The canvas of a number.
    pub fn get(&self, canvas: u32) -> Option<&CanvasRow>
        ensures { option_copied result ≡ slice_get self.now canvas }
    {
        self.rows.get(canvas as usize)
    }

    /// Gives a canvas another view. Where that is no pan of the present one, it keeps no painted layer. Takes
    /// no memory.
    pub fn set_view(&mut self, canvas: u32, view: View)
        ensures { self.new ≡ change_at canvas (tab_viewed view) self.old }
    {
        if (canvas as usize) < self.rows.len() {
            self.rows[canvas as usize].set_view(view);
        }
    }

    /// The painted layer of a canvas with these stamps at this view, which moves to the front; `None` exactly
    /// where there is none. Only what is there can want memory, and a refusal changes nothing.
    pub fn look(
        &mut self,
        canvas: u32,
        layer: u32,
        stamps: &Stamps,
        view: &View,
    ) -> Result<Option<Shared<PaintedLayer>>, NoMemory>
        ensures ok { IfOk result (TabLooked self.old self.new canvas layer (stamp_list stamps.now) view.now) }
        ensures err { OnErr result (self.new ≡ self.old) }
    {
        if (canvas as usize) < self.rows.len() {
            self.rows[canvas as usize].look(layer, stamps, view)
        } else {
            Ok(None)
        }
    }

    /// Puts a painted layer in front of those of a canvas, in the place of an older one of its layer, and
    /// cuts the others to the capacity. A refusal hands it back and changes nothing.
    pub fn store(
        &mut self,
        canvas: u32,
        painted: Shared<PaintedLayer>,
    ) -> Result<(), (Shared<PaintedLayer>, NoMemory)>
        ensures ok { OnOk result (self.new ≡ change_at canvas (tab_stored painted) self.old) }
        ensures err { OnErr result (self.new ≡ self.old) }
        ensures back { IfErr result (λ e. e.0 ≡ painted) }
    {
        if (canvas as usize) < self.rows.len() {
            self.rows[canvas as usize].store(painted)
        } else {
            Ok(())
        }
    }

    /// Takes out the painted layers that depend on the layer that an accepted edit touches. Takes no memory.
    pub fn touch(&mut self, edit: &Edit)
        ensures { self.new ≡ map (tab_edited edit.now) self.old }
    {
        for row in self.rows.iter_mut() {
            row.touch(edit);
        }
    }

    /// Publishes the picture of a job, which shows all of its slots, on a canvas. Takes no memory.
    pub fn publish(&mut self, canvas: u32, job: u32, row: &JobRow, image: Shared<Composed>)
        requires { image ≡ whole_of row.now }
        ensures { self.new ≡ change_at canvas (tab_publishes job row.now) self.old }
    {
        if (canvas as usize) < self.rows.len() {
            self.rows[canvas as usize].publish(job, row, image);
        }
    }
}
