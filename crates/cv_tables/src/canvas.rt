//! A canvas.

ghost use Rattle.std.specs.Prelude.{◌≡◌, false, OnOk, OnErr, IfOk, IfErr};
ghost use Rattle.std.specs.Option.{option_copied, option_map_or};
ghost use Rattle.cv_event.specs.Legality.{is_view};
ghost use Rattle.cv_layer.specs.Stamps.{stamp_list};
ghost use Rattle.cv_tables.specs.Rows.{whole_of};
ghost use Rattle.cv_tables.specs.Tabs.{new_tab, tab_viewed, tab_edited, tab_served};
ghost use Rattle.cv_tables.specs.Tabs.{tab_stored, tab_publishes, TabLook};

use crate::named::touched;
use crate::pans::keeps_cache;
use crate::row::JobRow;
use cv_cache::LayerCache;
use cv_chunks::Shared;
use cv_compose::Composed;
use cv_layer::{NoMemory, PaintedLayer, Stamps};
use cv_model::{CanvasSpec, Edit, View};
use std::alloc::Global;
use std::marker::Model;
use std::snapshot::Snapshot;

/// A picture that was published, seen as the number of its job and that job as it was then. It is composed of
/// all slots of the job.
#[derive(Drop)]
pub struct Published {
    job: u32,
    row: Snapshot<JobRow>,
    image: Shared<Composed>,
}

impl Model for Published {
    ghost use Rattle.std.specs.Prelude.{◌≡◌};
    ghost use Rattle.cv_tables.specs.Tabs.{PublishedJob};
    ghost use Rattle.cv_tables.specs.Rows.{whole_of};

    ghost Value = { PublishedJob };

    ghost view = { λ p. record { job = p.job; row = p.row.value } };

    ghost invariant = { λ p. p.image ≡ whole_of p.row.value };
}

impl Published {
    /// The number of the job.
    pub fn job(&self) -> u32
        ensures { result ≡ self.now.job }
    {
        self.job
    }

    /// The picture.
    pub fn image(&self) -> &Shared<Composed>
        ensures { result.now ≡ whole_of self.now.row }
    {
        &self.image
    }
}

/// A canvas, seen as its size and capacity, its present view, its painted layers, the one that was used last
/// first, and the last job that was finished on it.
#[derive(Drop)]
pub struct CanvasRow {
    spec: CanvasSpec,
    view: Option<View>,
    cache: LayerCache,
    published: Option<Published>,
}

impl Model for CanvasRow {
    ghost use Rattle.cv_tables.specs.Tabs.{Tab, IsTab};

    ghost Value = { Tab };

    ghost view = { λ c. record {
      spec = c.spec;
      view = c.view;
      paintings = c.cache.paintings;
      published = c.published;
    } };

    ghost invariant = { λ c. IsTab c.spec c.cache };
}

/// Whether two views are the same.
fn is_view(a: View, b: View) -> bool
    ensures { result ≡ is_view a b }
{
    a.u == b.u && a.w == b.w && a.h == b.h && a.lx2 == b.lx2 && a.ty2 == b.ty2
}

impl CanvasRow {
    /// A canvas that shows, keeps and has published nothing.
    pub(crate) fn new(alloc: Global, spec: CanvasSpec) -> Result<CanvasRow, NoMemory>
        ensures { IfOk result (λ made. made ≡ new_tab spec) }
    {
        let cache = LayerCache::new(alloc, spec.capacity)?;
        Ok(CanvasRow {
            spec,
            view: None,
            cache,
            published: None,
        })
    }

    /// Its size and capacity.
    pub fn spec(&self) -> CanvasSpec
        ensures { result ≡ self.now.spec }
    {
        self.spec
    }

    /// Its present view, if it has one.
    pub fn view(&self) -> Option<View>
        ensures { result ≡ self.now.view }
    {
        self.view
    }

    /// Whether this is its present view.
    pub fn shows(&self, view: View) -> bool
        ensures { result ≡ option_map_or (is_view view) self.now.view false }
    {
        match self.view {
            Some(present) => is_view(view, present),
            None => false,
        }
    }

    /// The picture of the last job that was finished on it, if there is one.
    pub fn published(&self) -> Option<&Published>
        ensures { option_copied result ≡ self.now.published }
    {
        self.published.as_ref()
    }

    /// The painted layer that a slot may be served, which moves to the front.
    pub(crate) fn look(
        &mut self,
        layer: u32,
        stamps: &Stamps,
        view: &View,
    ) -> Result<Option<Shared<PaintedLayer>>, NoMemory>
        ensures ok { IfOk result
            (λ found. TabLook self.old self.new layer (stamp_list stamps.now) view.now found) }
        ensures err { OnErr result (self.new ≡ self.old) }
    {
        self.cache.get(layer, stamps, view)
    }

    /// Keeps a painted layer.
    pub(crate) fn store(
        &mut self,
        painted: Shared<PaintedLayer>,
    ) -> Result<(), (Shared<PaintedLayer>, NoMemory)>
        ensures ok { OnOk result (self.new ≡ tab_stored painted self.old) }
        ensures err { OnErr result (self.new ≡ self.old) }
        ensures back { IfErr result (λ e. e.0 ≡ painted) }
    {
        self.cache.put(painted)
    }

    /// Gives it another view.
    pub(crate) fn set_view(&mut self, view: View)
        ensures { self.new ≡ tab_viewed view self.old }
    {
        if !keeps_cache(self.view, view) {
            self.cache.clear();
        }
        self.view = Some(view);
    }

    /// Takes out the painted layers that depend on the layer that an edit touches.
    pub(crate) fn touch(&mut self, edit: &Edit)
        ensures { self.new ≡ tab_edited edit.now self.old }
    {
        match touched(edit) {
            Some(layer) => self.cache.drop_dependents(layer),
            None => {}
        }
    }

    /// Publishes the picture of a job.
    pub(crate) fn publish(&mut self, job: u32, row: &JobRow, image: Shared<Composed>)
        requires { image ≡ whole_of row.now }
        ensures { self.new ≡ tab_publishes job row.now self.old }
    {
        self.published = Some(Published {
            job,
            row: Snapshot::of(row),
            image,
        });
    }
}
